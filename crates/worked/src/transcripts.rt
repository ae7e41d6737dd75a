// The lines of a transcript.
use refusal::{Fault, Refusal};
use std::test::Fail;
use transcript::answer::Answer;
use transcript::lines::Transcript;

#[test]
fn answers_are_numbered(rt: HostRuntime) -> Result<(), Fail> {
    let mut transcript = Transcript::new(rt.alloc());
    transcript.append(Answer::Done)?;
    transcript.append(Answer::Bad)?;
    transcript.append(Answer::Refused(Fault::new(Refusal::NoSession, 0)))?;
    assert_eq!(rt;
        transcript.into_text().as_str(),
        "1,ok\n2,bad\n3,no,6,table,0\n"
    );
    Ok(())
}
