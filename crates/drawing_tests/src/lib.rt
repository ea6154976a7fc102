// Examples of sheets read into a draft, with the board library: maj and mux, of three pins each.
#![tactic(auto)]

#[cfg(test)]
mod tests {
    use drawing::read::read_sheet;
    use grammar::room::Room;
    use library::board::board;
    use network::draft::Draft;
    use std::alloc::Global;
    use std::process::Abort;
    use std::test::Fail;

    // The sheet into a draft that had a line before.
    fn read(heap: Global, draft: &mut Draft, sheet: &[u8]) -> Result<Option<(u8, usize)>, Fail> {
        let family = board(heap)?;
        let room = Room::new(heap)?;
        draft.clear();
        draft.add_input(b"old", 0)?;
        let refusal = read_sheet(draft, &family, room, sheet).err();
        Ok(refusal.map(|fault| (fault.number(), fault.place())))
    }

    // Whether the sheet is refused with that number at that place, and leaves the draft empty.
    fn check_refused(
        rt: &impl Abort,
        heap: Global,
        what: &str,
        sheet: &[u8],
        number: u8,
        place: usize,
    ) -> Result<(), Fail> {
        let mut draft = Draft::new(heap)?;
        assert_eq!(rt;
            read(heap, &mut draft, sheet)?,
            Some((number, place)),
            "{what}"
        );
        assert_eq!(rt; draft.line_named(b"old"), None);
        assert_eq!(rt; draft.line_named(b"a"), None);
        Ok(())
    }

    #[test]
    fn refusals(rt: HostRuntime) -> Result<(), Fail> {
        let heap = rt.alloc();
        check_refused(&rt, heap, "no input", b"", 9, 0)?;
        check_refused(
            &rt,
            heap,
            "no line b",
            b"(input a 0)\n(line x (and 1 a b))\n",
            3,
            29,
        )?;
        check_refused(
            &rt,
            heap,
            "own form",
            b"(input a 0)\n(line x (mux 1 a x a))\n",
            3,
            29,
        )?;
        check_refused(
            &rt,
            heap,
            "no cell and",
            b"(input a 0)\n(line x (and 1 a a))\n",
            4,
            20,
        )?;
        check_refused(
            &rt,
            heap,
            "name taken",
            b"(input a 0)\n(line a (mux 1 a a a))\n",
            2,
            18,
        )
    }

    // Lines are numbered in the order of the closing brackets; the form's name is the outer cell's.
    #[test]
    fn order_of_lines(rt: HostRuntime) -> Result<(), Fail> {
        let heap = rt.alloc();
        let mut draft = Draft::new(heap)?;
        let sheet = b"(input a 0)\n(input b 2)\n(line x (maj 1 (mux 3 a b a) b (mux 4 b a b)))\n";
        assert_eq!(rt; read(heap, &mut draft, sheet)?, None);
        assert_eq!(rt; draft.line_named(b"x"), Some(4));
        draft.check_seal()?;
        let network = draft.seal();
        assert!(rt; network.lines.len() == 5);
        assert_eq!(rt; network.lines[1].delay, 2);
        assert_eq!(rt; network.lines[2].delay, 3);
        assert_eq!(rt; network.lines[3].delay, 4);
        assert_eq!(rt; network.lines[4].delay, 1);
        Ok(())
    }

    #[test]
    fn eight_deep_and_nine(rt: HostRuntime) -> Result<(), Fail> {
        let heap = rt.alloc();
        let mut draft = Draft::new(heap)?;
        let eight =
            b"(input a 0)\n(line x (maj 0 a a (maj 0 a a (maj 0 a a (maj 0 a a (maj 0 a a (maj 0 a a (maj 0 a a (maj 0 a a a)))))))))\n";
        assert_eq!(rt; read(heap, &mut draft, eight)?, None);
        assert_eq!(rt; draft.line_named(b"x"), Some(8));
        let nine =
            b"(input a 0)\n(line x (maj 0 a a (maj 0 a a (maj 0 a a (maj 0 a a (maj 0 a a (maj 0 a a (maj 0 a a (maj 0 a a (maj 0 a a a))))))))))\n";
        check_refused(&rt, heap, "nine deep", nine, 7, 108)
    }
}
