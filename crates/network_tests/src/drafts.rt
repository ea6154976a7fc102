// Drafts: what is refused, with which number, and what is drawn.
ghost use Rattle.std.specs.Prelude.{◌≡◌, Some, None, MatchResult};
ghost use Rattle.network.specs.Refusals.{number};

use library::board::board;
use lines::limits::{MAX_DELAY, MAX_INPUTS, MAX_LINES};
use network::checks::check_delay;
use network::draft::Draft;
use network::fault::DraftFault;
use std::test::Fail;

// The number of a refusal, if it is one.
fn refusal<T: Drop>(answer: Result<T, DraftFault>) -> Option<u8>
    ensures { MatchResult answer (λ _. result ≡ None) (λ fault. result ≡ Some (number fault)) }
{
    answer.err().map(|fault| fault.number())
}

// A name, and the refusal that it meets beside a line a.
#[test]
fn names_at_their_edges(rt: HostRuntime) -> Result<(), Fail> {
    let mut draft = Draft::new(rt.alloc())?;
    draft.add_input(b"a", 0)?;
    for (name, number) in [
        (&b"b"[..], None),
        (&b"a"[..], Some(2)),
        (&b"aa"[..], None),
        (&b"abcdefgh"[..], None),
        (&b"abcdefghi"[..], Some(1)),
        (&b""[..], Some(1)),
        (&b"A"[..], Some(1)),
        (&b"a1"[..], None),
        (&b"1a"[..], Some(1)),
    ] {
        assert_eq!(rt; refusal(draft.check_name(name)), number);
    }
    assert_eq!(rt; draft.line_named(b"a"), Some(0));
    assert_eq!(rt; draft.line_named(b"aa"), None);
    Ok(())
}

#[test]
fn delays_at_their_edges(rt: HostRuntime) {
    assert_eq!(rt; refusal(check_delay(MAX_DELAY)), None);
    assert_eq!(rt; refusal(check_delay(MAX_DELAY + 1)), Some(5));
}

// All inputs that there may be, and one more.
#[test]
fn inputs_to_the_last(rt: HostRuntime) -> Result<(), Fail> {
    let mut draft = Draft::new(rt.alloc())?;
    for i in 0..MAX_INPUTS {
        assert_eq!(rt; draft.add_input(&[b'a' + i as u8], 1), Ok(i));
    }
    assert_eq!(rt; refusal(draft.add_input(b"y", 1)), Some(6));
    draft.check_seal()?;
    assert_eq!(rt; draft.seal().input_count(), MAX_INPUTS);
    Ok(())
}

// All lines that there may be, and one more.
#[test]
fn lines_to_the_last(rt: HostRuntime) -> Result<(), Fail> {
    let library = board(rt.alloc())?;
    let mut draft = Draft::new(rt.alloc())?;
    draft.add_input(b"a", 1)?;
    for i in 1..MAX_LINES {
        assert_eq!(rt;
            draft.add_cell(&library, None, b"maj", 1, &[0, i - 1, i - 1]),
            Ok(i)
        );
    }
    assert_eq!(rt;
        refusal(draft.add_cell(&library, None, b"maj", 1, &[0, 0, 0])),
        Some(6)
    );
    assert_eq!(rt; refusal(draft.add_input(b"b", 1)), Some(6));
    draft.check_seal()?;
    assert_eq!(rt; draft.seal().line_count(), MAX_LINES);
    Ok(())
}

// The pins of a cell that would be line 2, and the refusal that they meet.
#[test]
fn pins_at_their_edges(rt: HostRuntime) -> Result<(), Fail> {
    let library = board(rt.alloc())?;
    let mut draft = Draft::new(rt.alloc())?;
    draft.add_input(b"a", 1)?;
    draft.add_input(b"b", 1)?;
    for (pins, number) in [
        (&[][..], Some(4)),
        (&[0][..], Some(4)),
        (&[0, 0, 0, 0][..], Some(4)),
        (&[0, 0, 0, 0, 0][..], Some(4)),
        (&[2, 0, 0][..], Some(10)),
        (&[0, 0, 2][..], Some(10)),
        (&[0, 3, 0][..], Some(10)),
        (&[0, 1, 1][..], None),
    ] {
        assert_eq!(rt;
            refusal(draft.add_cell(&library, None, b"mux", 1, pins)),
            number
        );
    }
    assert_eq!(rt; refusal(draft.add_input(b"c", 1)), Some(8));
    Ok(())
}

// Of several refusals that fit, the one with the least number is met.
#[test]
fn least_number(rt: HostRuntime) -> Result<(), Fail> {
    let library = board(rt.alloc())?;
    let mut draft = Draft::new(rt.alloc())?;
    draft.add_input(b"a", 1)?;
    assert_eq!(rt; refusal(draft.add_input(b"A", MAX_DELAY + 1)), Some(1));
    assert_eq!(rt; refusal(draft.add_input(b"a", MAX_DELAY + 1)), Some(2));
    assert_eq!(rt; refusal(draft.add_input(b"b", MAX_DELAY + 1)), Some(5));
    for (name, word, delay, pins, number) in [
        (&b"a"[..], &b"*"[..], 1, &[][..], Some(1)),
        (&b"A"[..], &b"maj"[..], 1, &[][..], Some(1)),
        (&b"a"[..], &b"maj"[..], 1, &[][..], Some(2)),
        (&b"b"[..], &b"maj"[..], MAX_DELAY + 1, &[1][..], Some(4)),
        (
            &b"b"[..],
            &b"maj"[..],
            MAX_DELAY + 1,
            &[1, 1, 1][..],
            Some(5),
        ),
        (&b"b"[..], &b"maj"[..], 1, &[1, 1, 1][..], Some(10)),
    ] {
        assert_eq!(rt;
            refusal(draft.add_cell(&library, Some(name), word, delay, pins)),
            number
        );
    }
    Ok(())
}

// A draft without inputs is not sealed; a sealed one tells its lines.
#[test]
fn sealing(rt: HostRuntime) -> Result<(), Fail> {
    let library = board(rt.alloc())?;
    let mut draft = Draft::new(rt.alloc())?;
    assert_eq!(rt; refusal(draft.check_seal()), Some(9));
    draft.add_input(b"a", 1)?;
    draft.clear();
    assert_eq!(rt; refusal(draft.check_seal()), Some(9));
    draft.add_input(b"a", 1)?;
    draft.add_cell(&library, None, b"maj", 1, &[0, 0, 0])?;
    draft.add_cell(&library, Some(b"out"), b"maj", 1, &[0, 1, 0])?;
    draft.check_seal()?;
    let network = draft.seal();
    assert_eq!(rt; network.line_count(), 3);
    assert_eq!(rt; network.input_count(), 1);
    assert_eq!(rt; network.line_named(b"out"), Some(2));
    assert!(rt; network.name_of(1).is_none());
    assert!(rt; network.name_of(3).is_none());
    assert!(rt;
        network
            .name_of(2)
            .is_some_and(|name| name.as_bytes() == b"out".as_slice())
    );
    Ok(())
}
