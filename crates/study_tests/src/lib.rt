// A run on a study whose later answers hang on its earlier calls.
#![tactic(auto)]

#[cfg(test)]
mod tests {
    use drawing::read::read_sheet;
    use gates::plain::Plain;
    use grammar::room::Room;
    use network::draft::Draft;
    use network::network::Network;
    use runs::replaying::replay;
    use runs::room::Room as Replies;
    use settling::latest::Latest;
    use std::alloc::{AllocError, Global};
    use std::process::Abort;
    use std::test::Fail;
    use times::ticks::Ticks;
    use turns::calls::{Call, Reply};

    // Line 5 is q: not a, and a as well as b after 9 ticks, which is never 1.
    fn never(rt: &impl Abort, heap: Global) -> Result<Network, Fail> {
        let sheet =
            b"(input a 0)\n(input b 0)\n(line p (and 1 a (buf 9 b)))\n(line q (and 1 (not 1 a) p))\n";
        let mut draft = Draft::new(heap)?;
        let room = Room::new(heap)?;
        assert!(rt; read_sheet(&mut draft, &Plain, room, sheet).is_ok());
        draft.check_seal()?;
        Ok(draft.seal())
    }

    fn seek(heap: Global, line: usize, value: u8, ticks: u64) -> Result<Call<Ticks>, AllocError> {
        let vector = vec![in heap; 0; 2]?;
        let free = Latest {
            zero: None,
            one: None,
        };
        let work = vec![in heap; free; 6]?;
        Ok(Call::Seek {
            line,
            value,
            bound: Ticks { ticks },
            vector,
            work,
        })
    }

    // The time, the looks and the vector's bytes that a seek answered.
    fn sought(reply: &Reply<Ticks>) -> Option<(Option<u64>, u32, u8, u8)> {
        let Reply::Sought {
            outcome: Ok(looked),
            vector,
            work: _,
        } = reply
        else {
            return None;
        };
        let time = looked.found.map(|time| time.ticks);
        Some((time, looked.looks, *vector.first()?, *vector.get(1)?))
    }

    #[test]
    fn findings_stay_when_shortened_and_go_when_lengthened(rt: HostRuntime) -> Result<(), Fail> {
        let heap = rt.alloc();
        let mut calls = Vec::with_capacity(heap, 5)?;
        calls.push(seek(heap, 5, 0, 3)?)?;
        calls.push(Call::Shorten { line: 2, delay: 4 })?;
        calls.push(seek(heap, 5, 0, 5)?)?;
        calls.push(Call::Lengthen { line: 4, delay: 5 })?;
        calls.push(seek(heap, 5, 0, 3)?)?;
        let ceilings = vec![in heap; None; 12]?;
        let room = Replies::reserve(heap, 5)?;
        match replay(never(&rt, heap)?, ceilings, calls, room) {
            Err(_) => {
                assert!(rt; false, "refused");
                Ok(())
            },
            Ok(replies) => {
                assert!(rt; replies.len() == 5);
                assert!(rt; sought(&replies[0]) == Some((None, 3, 0, 0)));
                assert!(rt; sought(&replies[2]) == Some((None, 0, 0, 0)));
                assert!(rt; sought(&replies[4]) == Some((Some(6), 4, 1, 0)));
                Ok(())
            }
        }
    }
}
