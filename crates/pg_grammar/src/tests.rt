use super::*;

#[test]
fn nothing_may_be_left(rt: HostRuntime) {
    let tokens = [b'a', b'b', b'c'];
    for (from, want) in [
        (3, Ok(7u8)),
        (2, Err(Fault::Syntax(1))),
        (0, Err(Fault::Syntax(3))),
    ] {
        assert_eq!(rt;
            whole(Part {
                value: 7u8,
                rest: &tokens[from..]
            }),
            want,
            "from {from}"
        );
    }
}
