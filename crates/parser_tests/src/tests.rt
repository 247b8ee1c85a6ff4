// Token records that no reading gives.
#[cfg(test)]
mod cases {
    use lexer::{Kind, Token};

    const SOURCE: &[u8; 12] = b"int main(){}";

    fn token(kind: Kind, place: u32, length: u32) -> Token {
        Token {
            kind,
            place,
            length,
            ..Token::default()
        }
    }

    // The tokens of SOURCE, with a value in the record of `}`.
    fn tokens(name_length: u32, value: i32) -> [Token; 6] {
        let mut close = token(Kind::CloseBrace, 11, 1);
        close.value = value;
        [
            token(Kind::Int, 0, 3),
            token(Kind::Name, 4, name_length),
            token(Kind::OpenParen, 8, 1),
            token(Kind::CloseParen, 9, 1),
            token(Kind::OpenBrace, 10, 1),
            close,
        ]
    }

    // The number of a refusal and its place, or 0.
    fn verdict(tokens: &[Token]) -> (u8, u32) {
        match parser::parse(SOURCE, tokens) {
            Ok(()) => (0, 0),
            Err(refusal) => (refusal.reason.number(), refusal.place),
        }
    }

    #[test]
    fn a_script(rt: HostRuntime) {
        assert_eq!(rt; verdict(&tokens(4, 0)), (0, 0));
    }

    #[test]
    fn a_mark_with_a_value(rt: HostRuntime) {
        assert_eq!(rt; verdict(&tokens(4, 5)), (9, 11));
    }

    #[test]
    fn another_name_than_main(rt: HostRuntime) {
        assert_eq!(rt; verdict(&tokens(3, 0)), (9, 8));
    }

    #[test]
    fn no_tokens(rt: HostRuntime) {
        assert_eq!(rt; verdict(&[]), (9, 12));
    }
}
