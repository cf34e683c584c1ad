//! Worked examples, as tests of the crates below, with a third field for them; and worked facts of
//! the definitions. It is a crate of its own, so that the crates below are not proved twice.
#![tactic(auto)]

pub mod facts;
#[cfg(test)]
mod row_tests;
pub mod sevens;
#[cfg(test)]
mod solver_tests;

#[cfg(test)]
mod tests {
    use crate::facts::worked_facts;
    use crate::sevens::Seven;
    use field::fields::{Field, code_of, is_code, laws_hold};
    use field::octets::Octets;
    use field::primes::Prime;
    use frame::checks::check_terms;
    use frame::refusals::{Layer, Refusal};
    use frame::terms::Term;
    use framelog::answerers::Answerer;
    use framelog::checks::FrameCheck;
    use framelog::logs::{Log, answer_log};
    use lines::answers::{answer, write_answer};
    use lines::entries::{Entry, read_entry};
    use lines::kinds::LineKind;
    use lines::numbers::number;
    use lines::openings::{FieldName, Opening};
    use lines::reading::{line_kind, read_frame};
    use lines::writing::write_frame;
    use profilelog::ends::final_report;
    use profilelog::sessions::Session;
    use rows::reading::Rows;
    use std::alloc::{AllocError, Global};
    use std::process::Abort;
    use std::test::Fail;

    pub(crate) fn term(minute: u16, weight: u16) -> Term {
        Term { minute, weight }
    }

    #[test]
    fn terms_are_checked_in_order(rt: HostRuntime) {
        assert_eq!(rt; check_terms(&[]), Err(Refusal::TermCount));
        assert_eq!(rt; check_terms(&[term(0, 1); 17]), Err(Refusal::TermCount));
        assert_eq!(rt; check_terms(&[term(0, 1), term(63, 65535)]), Ok(()));
        assert_eq!(rt;
            check_terms(&[term(0, 0), term(64, 1)]),
            Err(Refusal::MinuteOrder(1))
        );
        assert_eq!(rt;
            check_terms(&[term(7, 1), term(7, 1)]),
            Err(Refusal::MinuteOrder(1))
        );
        assert_eq!(rt;
            check_terms(&[term(6, 1), term(7, 0)]),
            Err(Refusal::ZeroWeight(1))
        );
    }

    #[test]
    fn refusals_have_numbers_and_places(rt: HostRuntime) {
        assert_eq!(rt; Refusal::Disputed.number(), 1);
        assert_eq!(rt; Refusal::SizeOutOfRange.number(), 16);
        assert_eq!(rt; Refusal::SizeOutOfRange.layer(), Layer::Block);
        assert_eq!(rt; Refusal::BadField(28).layer(), Layer::Line);
        assert_eq!(rt; Refusal::BadField(28).place(), 28);
        assert_eq!(rt; Refusal::ZeroWeight(3).layer(), Layer::Frame);
    }

    #[test]
    fn numbers_are_canonical(rt: HostRuntime) {
        assert_eq!(rt; number(b"0"), Some(0));
        assert_eq!(rt; number(b"65535"), Some(65535));
        assert_eq!(rt; number(b"65536"), None);
        assert_eq!(rt; number(b"00"), None);
        assert_eq!(rt; number(b"-1"), None);
        assert_eq!(rt; number(b""), None);
    }

    #[test]
    fn a_line_is_read_and_written(rt: HostRuntime) -> Result<(), Fail> {
        let Ok(read) = read_frame(b"F,12,0,1,1,2") else {
            return Err(Fail::new("refused"));
        };
        let frame = read.frame();
        assert_eq!(rt; frame.sum(), 12);
        assert_eq!(rt; frame.count(), 2);
        assert_eq!(rt; frame.term(1).ok_or("no term")?.weight, 2);
        assert!(rt; frame.term(2).is_none());
        let mut line = Vec::new(rt.alloc());
        write_frame(&mut line, &frame)?;
        assert!(rt; line.as_slice() == b"F,12,0,1,1,2".as_slice());
        Ok(())
    }

    #[test]
    fn openings_are_read(rt: HostRuntime) -> Result<(), Fail> {
        let Ok(Entry::Open(opening)) = read_entry(b"O,B,65535") else {
            return Err(Fail::new("refused"));
        };
        let wanted = Opening {
            field: FieldName::Octets,
            width: 65535,
        };
        assert_eq!(rt; opening, wanted);
        let Ok(Entry::Frame(frame)) = read_entry(b"F,12,0,1") else {
            return Err(Fail::new("refused"));
        };
        assert_eq!(rt; frame.frame().sum(), 12);
        Ok(())
    }

    fn refused(line: &[u8]) -> Option<Refusal> {
        read_entry(line).err()
    }

    #[test]
    fn lines_of_each_kind_are_refused(rt: HostRuntime) {
        assert_eq!(rt; refused(b"S"), Some(Refusal::UnknownLine));
        assert_eq!(rt; refused(b"o,P,7"), Some(Refusal::UnknownLine));
        assert_eq!(rt; refused(b"O,Q"), Some(Refusal::FieldCount));
        assert_eq!(rt; refused(b"O,P,7,7"), Some(Refusal::FieldCount));
        assert_eq!(rt; refused(b"O,F,x"), Some(Refusal::BadField(2)));
        assert_eq!(rt; refused(b"O,P,x"), Some(Refusal::BadField(4)));
        assert_eq!(rt; refused(b"F,5,0,0"), Some(Refusal::ZeroWeight(0)));
        assert_eq!(rt; line_kind(b"O,Q"), Some(LineKind::Open));
        assert_eq!(rt; line_kind(b"FF"), None);
    }

    #[test]
    fn answers_are_written(rt: HostRuntime) -> Result<(), Fail> {
        let mut out = Vec::new(rt.alloc());
        write_answer(&mut out, Some(LineKind::Open), Ok(7))?;
        write_answer(&mut out, Some(LineKind::Open), Err(Refusal::UnknownLine))?;
        write_answer(&mut out, None, Err(Refusal::UnknownLine))?;
        write_answer(&mut out, Some(LineKind::Frame), Err(Refusal::LedgerFull))?;
        let wanted = b"O,ok,7\nO,refused,line,13,0\n?,refused,line,13,0\nF,refused,block,5,0\n";
        assert!(rt; out.as_slice() == wanted.as_slice());
        Ok(())
    }

    fn answered(heap: Global, line: &[u8]) -> Result<Vec<u8>, AllocError> {
        let mut out = Vec::new(heap);
        answer(&mut out, line)?;
        Ok(out)
    }

    #[test]
    fn lines_are_answered(rt: HostRuntime) -> Result<(), Fail> {
        let heap = rt.alloc();
        assert!(rt; answered(heap, b"F,5,0,1")?.as_slice() == b"F,5,0,1\n".as_slice());
        assert!(rt; answered(heap, b"S")?.as_slice() == b"?,refused,line,13,0\n".as_slice());
        assert!(rt; answered(heap, b"F,5,0")?.as_slice() == b"F,refused,line,14,0\n".as_slice());
        assert!(rt; answered(heap, b"F,5,0,x")?.as_slice() == b"F,refused,line,15,6\n".as_slice());
        assert!(rt; answered(heap, b"F,5")?.as_slice() == b"F,refused,frame,10,0\n".as_slice());
        Ok(())
    }

    #[test]
    fn chunks_may_cut_a_line(rt: HostRuntime) -> Result<(), Fail> {
        let mut log = Log::new(FrameCheck);
        let mut out = Vec::new(rt.alloc());
        log.feed(&mut out, b"F,5,0")?;
        log.feed(&mut out, b",1\n\nF,1,0,1")?;
        log.finish(&mut out)?;
        assert!(rt; out.as_slice() == b"F,5,0,1\n?,refused,line,13,0\nF,1,0,1\n".as_slice());
        let mut whole = Vec::new(rt.alloc());
        answer_log(FrameCheck, &mut whole, b"F,5,0,1\n\nF,1,0,1")?;
        assert!(rt; whole.as_slice() == out.as_slice());
        Ok(())
    }

    // What the lines of a log answer that ends in the middle of one.
    #[test]
    fn a_session_opens_one_hour(rt: HostRuntime) -> Result<(), Fail> {
        let mut out = Vec::new(rt.alloc());
        let log = b"F,5,0,1\nO,P,65\nO,P,2\nO,B\nF,5,0,1\nF\nF,5,2,1\nS\nF,12,0,1,1,1";
        let session = answer_log(Session::new(), &mut out, log)?;
        let wanted =
            b"F,refused,line,13,0\nO,refused,block,16,0\nO,ok,2\nO,refused,line,13,0\nF,ok,0\n\
              F,refused,line,14,0\nF,refused,block,2,0\n?,refused,line,13,0\nF,ok,1\n";
        assert!(rt; out.as_slice() == wanted.as_slice());
        let hour = session.hour().ok_or("no hour")?;
        assert_eq!(rt; hour.field(), FieldName::Prime);
        assert_eq!(rt; hour.width(), 2);
        assert_eq!(rt; hour.rows().row_count(), 2);
        let report = final_report(rt.alloc(), &session)?;
        assert!(rt; report.as_bytes() == b"profile,2,0,1\nsolved,whole,2,5,5,7\n".as_slice());
        Ok(())
    }

    fn full(mut session: Session, heap: Global) -> Result<Vec<u8>, AllocError> {
        let mut out = Vec::new(heap);
        session.answer(&mut out, b"O,B,1")?;
        for _ in 0..96 {
            session.answer(&mut out, b"F,0,0,1")?;
        }
        out.clear();
        session.answer(&mut out, b"F,0,0,1")?;
        session.answer(&mut out, b"F,0,63,1")?;
        Ok(out)
    }

    #[test]
    fn a_session_has_room_for_96_rows(rt: HostRuntime) -> Result<(), Fail> {
        let out = full(Session::new(), rt.alloc())?;
        assert!(rt; out.as_slice() == b"F,refused,block,5,0\nF,refused,block,2,0\n".as_slice());
        Ok(())
    }

    // The values wanted, in the order of the calls.
    fn fields_work<F: Field>(
        rt: &impl Abort,
        sum: u16,
        negative: u16,
        product: u16,
        reciprocal: Option<u16>,
    ) {
        laws_hold::<F>();
        assert_eq!(rt; F::plus(200, 60000), sum);
        assert_eq!(rt; F::negative(60000), negative);
        assert_eq!(rt; F::times(200, 60000), product);
        assert_eq!(rt; F::inverse(60000), reciprocal);
        assert_eq!(rt; F::inverse(F::Q), None);
        assert_eq!(rt; F::times(code_of::<F>(60000), 1), code_of::<F>(60000));
        assert!(rt; is_code::<F>(code_of::<F>(65535)));
        assert!(rt; !is_code::<F>(F::Q));
    }

    #[test]
    fn three_fields_work(rt: HostRuntime) {
        worked_facts();
        fields_work::<Prime>(&rt, 60200, 5521, 9657, Some(3406));
        fields_work::<Octets>(&rt, 168, 96, 72, Some(36));
        fields_work::<Seven>(&rt, 0, 4, 5, Some(5));
    }
}
