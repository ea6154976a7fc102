// Examples of times, gates and deciding, at their edges.
#![tactic(auto)]

#[cfg(test)]
mod tests {
    use cells::pins::Pins;
    use cells::table::Table;
    use families::family::Family;
    use families::pair::Pair;
    use gates::plain::Plain;
    use library::board::board;
    use std::test::Fail;
    use times::staged::{Staged, StagedError};
    use times::ticks::Ticks;
    use times::time::Time;

    fn ticks(ticks: u64) -> Ticks {
        Ticks { ticks }
    }

    fn staged(ticks: u64, stages: u32) -> Staged {
        Staged { ticks, stages }
    }

    #[test]
    fn ticks_stop_at_the_greatest(rt: HostRuntime) {
        assert_eq!(rt; Ticks::start().after(7), ticks(7));
        assert_eq!(rt; ticks(u64::MAX - 3).after(3), ticks(u64::MAX));
        assert_eq!(rt; ticks(u64::MAX - 3).after(4), ticks(u64::MAX));
        assert!(rt; ticks(4).at_or_before(ticks(4)));
        assert!(rt; !ticks(5).at_or_before(ticks(4)));
    }

    #[test]
    fn stages_count_every_delay(rt: HostRuntime) {
        assert_eq!(rt; Staged::start().after(0), staged(0, 1));
        assert_eq!(rt; staged(9, u32::MAX).after(1), staged(10, u32::MAX));
        assert_eq!(rt; staged(u64::MAX - 1, 4).after(1), staged(u64::MAX, 5));
        assert_eq!(rt; staged(u64::MAX, 4).after(1), staged(u64::MAX, u32::MAX));
        assert!(rt; staged(4, 9).at_or_before(staged(5, 0)));
        assert!(rt; !staged(4, 9).at_or_before(staged(4, 8)));
    }

    // A word, a number of pins, and the table of the family with it, or None.
    #[test]
    fn tables(rt: HostRuntime) -> Result<(), Fail> {
        let family = Pair {
            first: Plain,
            second: board(rt.alloc())?,
        };
        assert_eq!(rt; family.table(b"not", 1), Some(0x1));
        assert_eq!(rt; family.table(b"not", 2), None);
        assert_eq!(rt; family.table(b"xor", 4), Some(0x6996));
        assert_eq!(rt; family.table(b"nand", 4), Some(0x7fff));
        assert_eq!(rt; family.table(b"and", 0), None);
        assert_eq!(rt; family.table(b"and", 5), None);
        assert_eq!(rt; family.table(b"maj", 3), None);
        assert_eq!(rt; family.table(b"*maj", 3), Some(0xe8));
        assert_eq!(rt; family.table(b"**maj", 3), None);
        assert_eq!(rt; family.table(b"*and", 2), None);
        Ok(())
    }

    // mux with pins 0, 1, 2 at times 9, 2, 4: the selector matters only where pins 1 and 2 differ.
    #[test]
    fn mux_decides(rt: HostRuntime) {
        let at = Pins::all(ticks(9)).with(1, ticks(2)).with(2, ticks(4));
        let mux = Table {
            outputs: 0xe4,
            pins: 3,
        };
        assert_eq!(rt; mux.decided_at(6, at), ticks(4));
        assert_eq!(rt; mux.decided_at(7, at), ticks(4));
        assert_eq!(rt; mux.decided_at(2, at), ticks(9));
        // a table with one output for all rows: the earliest pin
        let ones = Table {
            outputs: 0xff,
            pins: 3,
        };
        assert_eq!(rt; ones.decided_at(0, at), ticks(2));
    }

    #[test]
    fn ticks_are_read_and_printed(rt: HostRuntime) -> Result<(), Fail> {
        let time: Ticks = "18446744073709551615".parse()?;
        assert_eq!(rt; time, ticks(u64::MAX));
        assert_eq!(rt;
            time.to_string(rt.alloc())?.as_str(),
            "18446744073709551615"
        );
        for text in ["", "x", "5:1", "18446744073709551616"] {
            assert!(rt; text.parse::<Ticks>().is_err());
        }
        Ok(())
    }

    #[test]
    fn stages_are_read_and_printed(rt: HostRuntime) -> Result<(), Fail> {
        let time: Staged = "10:3".parse()?;
        assert_eq!(rt; time, staged(10, 3));
        assert_eq!(rt; time.to_string(rt.alloc())?.as_str(), "10:3");
        assert_eq!(rt; "10".parse::<Staged>(), Err(StagedError::NoStages));
        for text in ["", ":", "10:", ":3", "10:3:1", "10:4294967296"] {
            assert!(rt; text.parse::<Staged>().is_err());
        }
        Ok(())
    }
}
