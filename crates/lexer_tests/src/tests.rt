// Records that no reading gives, and lists of a wrong length.
#[cfg(test)]
mod cases {
    use lexer::Token;

    fn named(place: u32, length: u32) -> [Token; 1] {
        [Token {
            place,
            length,
            ..Token::default()
        }]
    }

    // The length of the text of record k, in a source of three bytes; 9 if there is none.
    fn text_length(record: [Token; 1], k: usize) -> usize {
        lexer::text(b"abc", &record, k).map_or(9, |text| text.len())
    }

    #[test]
    fn text_of_damaged_records(rt: HostRuntime) {
        assert_eq!(rt; text_length(named(0, 3), 0), 3);
        assert_eq!(rt; text_length(named(1, 1), 0), 1);
        assert_eq!(rt; text_length(named(3, 0), 0), 0);
        assert_eq!(rt; text_length(named(4, 0), 0), 9);
        assert_eq!(rt; text_length(named(1, 3), 0), 9);
        assert_eq!(rt; text_length(named(4_294_967_295, 4_294_967_295), 0), 9);
        assert_eq!(rt; text_length(named(0, 1), 1), 9);
        assert_eq!(rt; text_length(named(0, 1), 18_446_744_073_709_551_615), 9);
    }

    #[test]
    fn short_list(rt: HostRuntime) {
        let mut tokens = [Token::default(); 1023];
        let refusal = lexer::read(b"x", &mut tokens).err();
        assert_eq!(rt;
            refusal.map(|refusal| (refusal.reason.number(), refusal.place)),
            Some((2, 0))
        );
        assert_eq!(rt; tokens[0].length, 0);
    }
}
