//! Examples of bit pages that are read and written, as tests.
#![tactic(auto)]

#[cfg(test)]
mod tests {
    use bitpages::loading::load_table;
    use bitpages::writing::{TableRefusal, write_table};
    use buffers::WriteRefusal;
    use frames::faults::FaultNumbers;
    use std::test::Fail;

    // The fault of a text in numbers, or none where it is a page.
    fn fault_of(text: &[u8]) -> Option<FaultNumbers> {
        let mut table = [false; 4096];
        match load_table(text, &mut table) {
            Ok(_) => None,
            Err(fault) => Some(fault.numbers()),
        }
    }

    fn fault(layer: u8, cause: u8, line: usize) -> Option<FaultNumbers> {
        Some(FaultNumbers {
            layer,
            cause,
            line,
            node: 0,
        })
    }

    #[test]
    fn a_page_fills_the_table(rt: HostRuntime) -> Result<(), Fail> {
        let mut table = [true; 4096];
        assert_eq!(rt; load_table(b"0302FB\n0406F6\n", &mut table)?, 2);
        assert!(rt; !table[0] && table[1] && table[2] && !table[3]);
        assert!(rt; !table[4] && !table[4095]);
        Ok(())
    }

    #[test]
    fn faults_have_their_numbers(rt: HostRuntime) {
        assert_eq!(rt; fault_of(b"0302FB\n0416E6\n"), fault(2, 5, 2));
        assert_eq!(rt; fault_of(b"030DF0\n"), fault(2, 4, 1));
        assert_eq!(rt; fault_of(b"0302FB\n"), fault(3, 8, 2));
        assert_eq!(rt; fault_of(b"0302FB\n23DD\n"), fault(1, 3, 2));
        assert_eq!(rt; fault_of(b"0302FB\n0406F6\n23DD\n"), fault(3, 8, 3));
        assert_eq!(rt; fault_of(b"0302FB\n0406F6\n23DE\n"), fault(1, 2, 3));
        assert_eq!(rt; fault_of(b""), fault(3, 8, 1));
    }

    #[test]
    fn a_written_table_loads(rt: HostRuntime) -> Result<(), Fail> {
        let mut table = [false; 256];
        table[3] = true;
        table[200] = true;
        let mut out = [0u8; 81];
        assert_eq!(rt; write_table(8, &table, &mut out)?, 81);
        let mut loaded = [true; 4096];
        assert_eq!(rt; load_table(&out, &mut loaded)?, 8);
        assert!(rt; &loaded[0..256] == table.as_slice());
        assert!(rt; !loaded[256]);
        Ok(())
    }

    #[test]
    fn refusals(rt: HostRuntime) {
        let mut out = [0u8; 13];
        let short = TableRefusal::Unwritten(WriteRefusal::TooShort);
        assert_eq!(rt;
            write_table(2, &[false, true, true, false], &mut out),
            Err(short)
        );
        assert_eq!(rt;
            write_table(2, &[false, true], &mut out),
            Err(TableRefusal::NoTable)
        );
        assert_eq!(rt;
            write_table(0, &[true], &mut out),
            Err(TableRefusal::NoTable)
        );
    }
}
