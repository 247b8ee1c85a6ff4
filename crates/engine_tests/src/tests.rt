// What calls refuse, in which order, and what they leave.
use boards::{Board, Stats};
use engine::Engine;
use lexer::Token;
use machine::Instruction;
use refusal::Refusal;
use std::test::Fail;

// The number and place of a refusal; 0 where there is none. The tests of boards have this and the next without the place:
// tests share no library.
fn told<T: Drop>(res: Result<T, Refusal>) -> (u8, u32) {
    match res {
        Ok(_) => (0, 0),
        Err(refusal) => (refusal.reason.number(), refusal.place),
    }
}

// What was accepted.
fn accepted<T>(res: Result<T, Refusal>) -> Result<T, Fail> {
    res.map_err(|_| Fail::new("refused"))
}

const ZONE: [i32; 1] = [7];

#[test]
fn nothing_is_loaded_at_first(rt: HostRuntime) -> Result<(), Fail> {
    let mut engine = Engine::new();
    let mut board = accepted(Stats::new(1, 1, &ZONE, 0))?;
    assert_eq!(rt; told(engine.rewind()), (18, 0));
    assert_eq!(rt; told(engine.go(&[], &mut board, 2_000_000)), (18, 0));
    Ok(())
}

#[test]
fn lengths_are_refused_in_order(rt: HostRuntime) {
    let mut engine = Engine::new();
    let long = [b' '; 16_385];
    let mut tokens = [Token::default(); 1_024];
    let mut code = [Instruction::default(); 4_096];
    assert_eq!(rt; told(engine.load(&long, &mut [], &mut [])), (1, 0));
    assert_eq!(rt;
        told(engine.load(b"@", &mut tokens[0..1_023], &mut [])),
        (2, 0)
    );
    assert_eq!(rt;
        told(engine.load(b"@", &mut tokens, &mut code[0..4_095])),
        (3, 0)
    );
    assert_eq!(rt; told(engine.load(b"@", &mut tokens, &mut code)), (4, 0));
    assert_eq!(rt; told(engine.rewind()), (18, 0));
}

#[test]
fn a_refused_load_changes_nothing(rt: HostRuntime) -> Result<(), Fail> {
    let mut engine = Engine::new();
    let mut tokens = [Token::default(); 1_024];
    let mut code = [Instruction::default(); 4_096];
    let mut board = accepted(Stats::new(1, 1, &ZONE, 0))?;
    accepted(engine.load(b"int main(){while(true){}}", &mut tokens, &mut code))?;
    accepted(engine.go(&code, &mut board, 5))?;
    let before = code;
    assert_eq!(rt;
        told(engine.load(b"int main(){x;}", &mut tokens, &mut code)),
        (13, 11)
    );
    assert!(rt; code == before);
    let answer = accepted(engine.go(&code, &mut board, 3))?;
    assert_eq!(rt; answer.spent, 8);
    assert_eq!(rt; (answer.ending.number(), answer.place), (1, 11));
    Ok(())
}

#[test]
fn goes_are_refused_in_order(rt: HostRuntime) -> Result<(), Fail> {
    let mut engine = Engine::new();
    let mut tokens = [Token::default(); 1_024];
    let mut code = [Instruction::default(); 4_096];
    let mut board = accepted(Stats::new(1, 1, &ZONE, 0))?;
    let counts = accepted(engine.load(b"int main(){return 7;}", &mut tokens, &mut code))?;
    assert_eq!(rt; counts.tokens, 9);
    assert_eq!(rt; told(engine.go(&[], &mut board, 2_000_000)), (19, 0));
    assert_eq!(rt; told(engine.go(&code, &mut board, 1_000_001)), (20, 0));
    let answer = accepted(engine.go(&code, &mut board, 0))?;
    assert_eq!(rt; (answer.ending.value(), answer.spent), (7, 0));
    assert_eq!(rt; told(engine.go(&code, &mut board, 1_000_001)), (20, 0));
    assert_eq!(rt; told(engine.go(&code, &mut board, 1_000_000)), (21, 0));
    accepted(engine.rewind())?;
    assert_eq!(rt;
        accepted(engine.go(&code, &mut board, 1))?.ending.value(),
        7
    );
    Ok(())
}

#[test]
fn code_that_was_changed_is_run_as_it_is(rt: HostRuntime) -> Result<(), Fail> {
    let mut engine = Engine::new();
    let mut tokens = [Token::default(); 1_024];
    let mut code = [Instruction::default(); 4_096];
    let mut board = accepted(Stats::new(1, 1, &ZONE, 0))?;
    accepted(engine.load(b"int main(){return 7;}", &mut tokens, &mut code))?;
    let first = code[0];
    code[0] = Instruction {
        code: -1,
        operand: 0,
        place: 9,
    };
    let broken = accepted(engine.go(&code, &mut board, 1))?;
    assert_eq!(rt;
        (broken.ending.number(), broken.place, broken.counted),
        (4, 0, 0)
    );
    assert_eq!(rt; told(engine.go(&code, &mut board, 1)), (21, 0));
    code[0] = first;
    accepted(engine.rewind())?;
    assert_eq!(rt;
        accepted(engine.go(&code, &mut board, 1))?.ending.value(),
        7
    );
    Ok(())
}

#[test]
fn the_token_list_begins_with_what_was_read(rt: HostRuntime) {
    let mut engine = Engine::new();
    let mut tokens = [Token::default(); 1_025];
    let mut code = [Instruction::default(); 4_096];
    assert_eq!(rt; told(engine.load(b"int @", &mut tokens, &mut code)), (4, 4));
    assert_eq!(rt; (tokens[0].length, tokens[1].length), (3, 0));
    assert_eq!(rt;
        told(engine.load(b"int main(){x;}", &mut tokens, &mut code)),
        (13, 11)
    );
    assert_eq!(rt; (tokens[7].length, tokens[8].length), (1, 0));
}
