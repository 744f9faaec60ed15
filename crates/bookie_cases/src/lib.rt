// Direct calls to bookies, journals and groups with their answers, worked out by hand from the rules.
#![tactic(auto)]

#[cfg(test)]
mod tests {
    use bookies::interface::Bookie;
    use bookies::memory::MemoryBookie;
    use groups::interface::Group;
    use groups::one::One;
    use groups::pair::Pair;
    use journals::journal::JournalBookie;
    use journals::set_up::{JournalUser, lend_journal, with_journal};
    use ledgers::bodies::Body;
    use ledgers::ids::{BookieId, EntryId, Lac, LedgerId};
    use messages::entries::Held;
    use places::Blank;
    use std::test::*;

    const LONG: [u8; 41] = [32; 41];

    // For what works on a bookie without the runtime, as who is lent one by `with_journal`.
    fn check(holds: bool) -> Result<(), Fail> {
        if holds {
            Ok(())
        } else {
            Err(Fail::new("a bookie answers otherwise"))
        }
    }

    // 0 for a good answer, and else the refusal's number.
    fn number<F: Drop>(answer: Result<(), F>) -> u32
    where
        u32: From<F>,
    {
        match answer {
            Ok(()) => 0,
            Err(fault) => u32::from(fault),
        }
    }

    fn add<B: Bookie>(bookie: &mut B, ledger: u32, entry: u32, lac: u32, body: &[u8]) -> u32 {
        number(bookie.add(LedgerId(ledger), EntryId(entry), Lac(lac), body, false))
    }

    // Numbers out of range, in every make of bookie.
    fn out_of_range<B: Bookie>(bookie: &mut B) -> Result<(), Fail> {
        check(add(bookie, 0, 0, 0, b"oak") == 20)?;
        check(add(bookie, 17, 0, 0, b"oak") == 20)?;
        check(add(bookie, 4294967295, 0, 0, b"oak") == 20)?;
        check(add(bookie, 1, 10000, 0, b"oak") == 20)?;
        check(add(bookie, 1, 5, 6, b"oak") == 20)?;
        check(add(bookie, 1, 0, 0, &LONG) == 20)?;
        check(bookie.fence(LedgerId(17)).is_err())?;
        check(bookie.read(LedgerId(0), EntryId(0)).is_err())
    }

    // The questions in their order, in a new bookie with space for one entry.
    fn in_order<B: Bookie>(bookie: &mut B) -> Result<(), Fail> {
        check(add(bookie, 1, 0, 0, b"oak") == 0)?;
        check(add(bookie, 1, 0, 0, b"oak") == 0)?;
        check(add(bookie, 1, 0, 0, b"ash") == 23)?;
        check(add(bookie, 1, 1, 1, b"elm") == 24)?;
        check(bookie.fence(LedgerId(1)).is_ok())?;
        check(add(bookie, 1, 0, 0, b"oak") == 22)?;
        check(number(bookie.add(LedgerId(1), EntryId(0), Lac(0), b"oak", true)) == 0)?;
        bookie.stop();
        check(add(bookie, 1, 0, 0, b"oak") == 21)?;
        check(add(bookie, 17, 0, 0, b"oak") == 20)?;
        bookie.start();
        check(add(bookie, 1, 0, 0, b"oak") == 22)
    }

    // Both, one after the other.
    fn all_answers<B: Bookie>(bookie: &mut B) -> Result<(), Fail> {
        out_of_range(bookie)?;
        in_order(bookie)
    }

    #[test]
    fn a_memory_bookie_puts_its_questions_in_order(rt: HostRuntime) -> Result<(), Fail> {
        let mut records = [Held::blank(); 1];
        let mut bookie = MemoryBookie::new(&mut records);
        all_answers(&mut bookie)
    }

    #[test]
    fn a_journal_bookie_puts_its_questions_in_order(rt: HostRuntime) -> Result<(), Fail> {
        let mut file = [7; 84];
        let Ok(worked) = with_journal(&mut file, |bookie| all_answers(bookie)) else {
            assert!(rt; false);
            return Ok(());
        };
        worked
    }

    #[test]
    fn a_journal_of_83_bytes_is_refused(rt: HostRuntime) -> Result<(), Fail> {
        let mut file = [7; 83];
        match with_journal(&mut file, |bookie| all_answers(bookie)) {
            Ok(worked) => {
                worked?;
                assert!(rt; false);
                Ok(())
            }
            Err(fault) => {
                assert!(rt; u32::from(fault) == 15 && file[0] == 7);
                Ok(())
            }
        }
    }

    // Adds one entry, and answers as the bookie does.
    #[derive(Drop)]
    struct OneOrder;

    impl JournalUser for OneOrder {
        type Answer = u32;

        ghost promises = { λ _ _ _. Unit {0} };

        fn work(self, bookie: &mut JournalBookie<'_>) -> u32 {
            add(bookie, 1, 0, 0, b"oak")
        }
    }

    #[test]
    fn a_user_is_lent_a_journal(rt: HostRuntime) -> Result<(), Fail> {
        let mut file = [7; 84];
        assert!(rt; matches!(lend_journal(&mut file, OneOrder), Ok(0)));
        let mut small = [7; 83];
        assert!(rt; lend_journal(&mut small, OneOrder).is_err() && small[0] == 7);
        Ok(())
    }

    fn worked_example(bookie: &mut JournalBookie<'_>) -> Result<(), Fail> {
        check(add(bookie, 16, 300, 259, b"oak") == 0)?;
        check(bookie.fence(LedgerId(1)).is_ok())?;
        check(bookie.fence(LedgerId(16)).is_ok())?;
        let mut expected = [0u8; 136];
        expected[0..16].copy_from_slice(&[1, 0, 0, 0, 84, 0, 0, 0, 1, 128, 0, 0, 136, 0, 0, 0]);
        expected[32..47].copy_from_slice(&[16, 0, 3, 0, 44, 1, 0, 0, 3, 1, 0, 0, 111, 97, 107]);
        check(bookie.bytes() == &expected[..])
    }

    // The worked example of docs/JOURNAL.md.
    #[test]
    fn a_journal_has_the_bytes_of_the_worked_example(rt: HostRuntime) -> Result<(), Fail> {
        let mut file = [7; 136];
        let Ok(worked) = with_journal(&mut file, worked_example) else {
            assert!(rt; false);
            return Ok(());
        };
        worked
    }

    #[test]
    fn a_group_calls_its_bookies_by_number(rt: HostRuntime) -> Result<(), Fail> {
        let mut records = [Held::blank(); 1];
        let mut file = [0; 16384];
        let mut first = MemoryBookie::new(&mut records);
        let mut second = JournalBookie::standard(&mut file);
        let mut group = Pair {
            left: One { bookie: &mut first },
            right: One {
                bookie: &mut second,
            },
        };
        assert!(rt; number(group.stop(BookieId(8))) == 4);
        assert!(rt; number(group.start(BookieId(2))) == 4);
        assert!(rt; number(group.stop(BookieId(1))) == 0);
        assert!(rt;
            number(group.add(BookieId(1), LedgerId(1), EntryId(0), Lac(0), b"oak", false)) == 21
        );
        assert!(rt;
            number(group.add(BookieId(0), LedgerId(1), EntryId(0), Lac(0), b"oak", false)) == 0
        );
        Ok(())
    }
}
