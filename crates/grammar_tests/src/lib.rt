// Examples of texts, at both sides of each edge of the grammar.
#![tactic(auto)]

#[cfg(test)]
mod tests {
    use grammar::fault::GrammarFault::{self, Broken, TooDeep, TooLong};
    use grammar::read::MAX_SHEET;
    use grammar::room::Room;
    use std::alloc::Global;
    use std::process::Abort;
    use std::test::Fail;

    // Reads each text, which is refused for the fault beside it, or is a sheet where there is none.
    fn read_each(
        rt: &impl Abort,
        heap: Global,
        cases: &[(&[u8], Option<GrammarFault>)],
    ) -> Result<(), Fail> {
        for (text, fault) in cases {
            assert_eq!(rt; Room::new(heap)?.read(text).err(), *fault);
        }
        Ok(())
    }

    #[test]
    fn names_and_words(rt: HostRuntime) -> Result<(), Fail> {
        let cases: &[(&[u8], Option<GrammarFault>)] = &[
            (b"(input abcdefgh 0)\n", None),
            (b"(input abcdefghi 0)\n", Some(Broken { place: 15 })),
            (b"(input 1a 0)\n", Some(Broken { place: 7 })),
            (b"(line a (*******b 0 c))\n", None),
            (b"(line a (********b 0 c))\n", Some(Broken { place: 16 })),
            (b"(line a (b* 0 c))\n", Some(Broken { place: 10 })),
            (b"(Input a 0)\n", Some(Broken { place: 1 })),
        ];
        read_each(&rt, rt.alloc(), cases)
    }

    #[test]
    fn delays(rt: HostRuntime) -> Result<(), Fail> {
        let cases: &[(&[u8], Option<GrammarFault>)] = &[
            (b"(input a 9999999)\n", None),
            (b"(input a 99999999)\n", Some(Broken { place: 16 })),
            (b"(input a 0)\n", None),
            (b"(input a 00)\n", Some(Broken { place: 10 })),
            (b"(input a 01)\n", Some(Broken { place: 10 })),
        ];
        read_each(&rt, rt.alloc(), cases)
    }

    #[test]
    fn pins_and_spaces(rt: HostRuntime) -> Result<(), Fail> {
        let cases: &[(&[u8], Option<GrammarFault>)] = &[
            (b"(line x (and 1 a b c d))\n", None),
            (b"(line x (and 1 a b c d e))\n", Some(Broken { place: 22 })),
            (b"(line x (and 1))\n", Some(Broken { place: 14 })),
            (b"(line x  (and 1 a))\n", Some(Broken { place: 8 })),
            (b"(line x (and 1 a ))\n", Some(Broken { place: 17 })),
        ];
        read_each(&rt, rt.alloc(), cases)
    }

    #[test]
    fn depth(rt: HostRuntime) -> Result<(), Fail> {
        let eight = b"(line x (b 0 (b 0 (b 0 (b 0 (b 0 (b 0 (b 0 (b 0 a)))))))))\n";
        let nine = b"(line x (b 0 (b 0 (b 0 (b 0 (b 0 (b 0 (b 0 (b 0 (b 0 a))))))))))\n";
        let both = b"(line x (b 0 (b 0 (b 0 (b 0 (b 0 (b 0 (b 0 (b 00 (b 0 a";
        let cases: &[(&[u8], Option<GrammarFault>)] = &[
            (eight, None),
            (nine, Some(TooDeep { place: 48 })),
            // cut off after its bracket, a ninth cell is too deep all the same
            (&nine[0..49], Some(TooDeep { place: 48 })),
            // what comes first by its place
            (both, Some(Broken { place: 47 })),
        ];
        read_each(&rt, rt.alloc(), cases)
    }

    #[test]
    fn ends(rt: HostRuntime) -> Result<(), Fail> {
        let cases: &[(&[u8], Option<GrammarFault>)] = &[
            (b"", None),
            (b"(input a 0)", Some(Broken { place: 11 })),
            (b"(input a 0)\n\n", Some(Broken { place: 12 })),
            (b"(input a 0)\r\n", Some(Broken { place: 11 })),
            (b"\xff", Some(Broken { place: 0 })),
        ];
        read_each(&rt, rt.alloc(), cases)
    }

    #[test]
    fn lengths(rt: HostRuntime) -> Result<(), Fail> {
        // input forms of 12 bytes, and the four bytes that are left begin one more
        let mut text = Vec::with_capacity(rt.alloc(), MAX_SHEET + 1)?;
        for b in b"(input a 0)\n".iter().cycle().take(MAX_SHEET) {
            text.push(*b)?;
        }
        read_each(
            &rt,
            rt.alloc(),
            &[(&text, Some(Broken { place: MAX_SHEET }))],
        )?;
        text.push(b'u')?;
        read_each(&rt, rt.alloc(), &[(&text, Some(TooLong))])
    }
}
