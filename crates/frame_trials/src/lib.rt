//! Examples of frames that are read, written and reported on, as tests.
#![tactic(auto)]

#[cfg(test)]
mod tests {
    use buffers::WriteRefusal;
    use frames::faults::{FaultNumbers, PageFault};
    use frames::frame::{Form, Frame};
    use frames::kinds::{Kind, UnknownKind};
    use frames::reader::FrameReader;
    use frames::writer::write_frames;
    use reports::check::check_text;
    use reports::words::fault_text;
    use rows::Row;
    use std::test::Fail;

    fn numbers(layer: u8, cause: u8, line: usize, node: usize) -> FaultNumbers {
        FaultNumbers {
            layer,
            cause,
            line,
            node,
        }
    }

    // Kept: as an Option each expected value would be wrapped in `Some`, which is no plainer.
    // The first line's fault in numbers; all 0 for a good frame or the end.
    fn first(text: &[u8]) -> FaultNumbers {
        let mut reader = FrameReader::new(text);
        match reader.next() {
            Ok(_) => numbers(0, 0, 0, 0),
            Err(fault) => fault.numbers(),
        }
    }

    // A row's clone has its elements.
    #[test]
    fn a_row_is_cloned(rt: HostRuntime) -> Result<(), Fail> {
        let mut row: Row<u8, 3> = Row::new(0);
        assert_eq!(rt; row.extend_from_slice(&[7, 9]), Ok(()));
        let Ok(other) = row.clone() else {
            return Err(Fail::new("a row of bytes is cloned"));
        };
        assert_eq!(rt; other.as_slice().len(), 2);
        assert_eq!(rt; other.as_slice().last().copied(), Some(9));
        Ok(())
    }

    #[test]
    fn line_causes(rt: HostRuntime) {
        let good = numbers(0, 0, 0, 0);
        let malformed = numbers(1, 1, 1, 0);
        assert_eq!(rt; first(b"23DD\n"), good, "a good line");
        assert_eq!(rt; first(b""), good, "no bytes at all");
        assert_eq!(rt; first(b"23DE\n"), numbers(1, 2, 1, 0), "a wrong sum");
        assert_eq!(rt; first(b"23dd\n"), malformed, "lower-case digits");
        assert_eq!(rt; first(b"23DG\n"), malformed, "a wrong character");
        assert_eq!(rt; first(b"23 DD\n"), malformed, "a blank");
        assert_eq!(rt; first(b"23DD\r\n"), malformed, "a carriage return");
        assert_eq!(rt; first(b"23DD0\n"), malformed, "an odd digit");
        assert_eq!(rt; first(b"00\n"), malformed, "one byte");
        assert_eq!(rt; first(b"\n"), malformed, "an empty line");
        assert_eq!(rt; first(b"23DD"), malformed, "no end of the last line");
    }

    #[test]
    fn lengths(rt: HostRuntime) {
        let of_24 = b"000000000000000000000000000000000000000000000000\n";
        let of_25 = b"00000000000000000000000000000000000000000000000000\n";
        assert_eq!(rt; first(of_24), numbers(0, 0, 0, 0));
        assert_eq!(rt; first(of_25), numbers(1, 1, 1, 0));
        assert!(rt; Frame::sealed(&[0u8; 23]).is_some());
        assert!(rt; Frame::sealed(&[0u8; 24]).is_none());
        assert!(rt; Frame::sealed(&[0u8; 0]).is_none());
    }

    #[test]
    fn frames_that_are_due(rt: HostRuntime) -> Result<(), Fail> {
        let forms = [Form {
            kind: u8::from(Kind::Close),
            len: 2,
        }];
        let mut reader = FrameReader::new(b"2101DE\n23DD\n2300DD\n");
        match reader.due(&forms) {
            Ok(_) => return Err(Fail::new("another kind")),
            Err(fault) => assert_eq!(rt; fault.numbers(), numbers(1, 3, 1, 0)),
        }
        assert!(rt;
            reader.due(&forms).is_ok(),
            "the reader goes on after a fault"
        );
        match reader.due(&forms) {
            Ok(_) => return Err(Fail::new("another byte count")),
            Err(fault) => assert_eq!(rt; fault.numbers(), numbers(1, 3, 3, 0)),
        }
        assert_eq!(rt; reader.line(), 4);
        assert_eq!(rt; Kind::try_from(0x12), Ok(Kind::Cell));
        assert_eq!(rt; Kind::try_from(0x05), Err(UnknownKind(0x05)));
        Ok(())
    }

    #[test]
    fn written_lines(rt: HostRuntime) -> Result<(), Fail> {
        let Some(frame) = Frame::sealed(b"\x22\x02\x01") else {
            return Err(Fail::new("three bytes are a frame's content"));
        };
        let mut out = [b'.'; 12];
        assert_eq!(rt;
            write_frames(&[frame], &mut out[0..8]),
            Err(WriteRefusal::TooShort)
        );
        assert!(rt; out == *b"............", "a refusal writes nothing");
        assert_eq!(rt; write_frames(&[frame], &mut out), Ok(9));
        assert!(rt; out == *b"220201DB\n...", "only the line's bytes change");
        assert_eq!(rt; write_frames(&[], &mut out), Ok(0));
        Ok(())
    }

    #[test]
    fn faults_in_words(rt: HostRuntime) -> Result<(), Fail> {
        let heap = rt.alloc();
        let report = check_text(heap, b"23DE\n23DD\n0405F6\n")?;
        assert!(rt;
            report.text.as_str()
                == "line 1: layer 1, cause 2: wrong sum, the last byte should be DD\nline 2: kind 23, 2 bytes: close\nline 3: layer 1, cause 2: wrong sum, the last byte should be F7\n3 lines: 1 good, 2 faulty\n"
        );
        let unnamed = fault_text(heap, &PageFault::Unnamed { line: 4, node: 3 })?;
        assert!(rt;
            unnamed.as_str() == "line 4: layer 3, cause 7, node 3: no later node names this one"
        );
        let long = fault_text(heap, &PageFault::TooLong)?;
        assert!(rt; long.as_str() == "line 0: layer 3, cause 8: the job has more than 32768 bytes");
        Ok(())
    }
}
