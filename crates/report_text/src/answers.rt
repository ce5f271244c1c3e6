//! The lines of answers.
ghost use Rattle.std.specs.Prelude.{◌≡◌, ◌++◌, codes, OnOk};
ghost use Rattle.std.specs.List.{flat_map};
ghost use Rattle.std.specs.Fmt.{decimal};
ghost use Rattle.run_meaning.specs.Report.{code_text, verdict_text, reply_text};
ghost use Rattle.report_text.specs.Lines.{line_of};

use crate::code::put_code;
use crate::pieces::{put, put_count, put_number};
use run_items::{Answer, Reply};
use store_fields::Verdict;
use values::{Code, Disposal, NoMemory, Pumped, Texts};

/// The lines of these answers, in their order.
pub fn put_answers(out: &mut Vec<u8>, texts: &Texts, answers: &[Answer]) -> Result<(), NoMemory>
    ensures { OnOk result (out.new.items ≡ out.old.items ++ flat_map (line_of texts.now) answers.now) }
{
    for answer in answers {
        put_answer(out, texts, *answer)?;
    }
    Ok(())
}

/// The line of an answer: the numbers of its phase, lane and operation, and what was replied.
pub fn put_answer(out: &mut Vec<u8>, texts: &Texts, answer: Answer) -> Result<(), NoMemory>
    ensures { OnOk result (out.new.items ≡ out.old.items ++ line_of texts.now answer) }
{
    put_place(out, answer)?;
    put_reply(out, texts, answer.reply)?;
    put(out, b"\n")
}

/// What an answer's line begins with.
fn put_place(out: &mut Vec<u8>, answer: Answer) -> Result<(), NoMemory>
    ensures { OnOk result (out.new.items ≡ out.old.items ++ (decimal answer.phase ++ codes "." ++ decimal answer.lane ++ codes "." ++ decimal answer.op ++ codes " ")) }
{
    put_number(out, answer.phase)?;
    put_count(out, b".", answer.lane)?;
    put_count(out, b".", answer.op)?;
    put(out, b" ")
}

/// What was replied, in words. Rows and owners are those of the plan that the phase opened with.
pub fn put_reply(out: &mut Vec<u8>, texts: &Texts, reply: Reply) -> Result<(), NoMemory>
    ensures { OnOk result (out.new.items ≡ out.old.items ++ reply_text texts.now reply) }
{
    match reply {
        Reply::Set(number) => put_count(out, b"set ", number),
        Reply::Got(code, number) => put_got(out, texts, code, number),
        Reply::Pumped(pumped) => put_pumped(out, pumped),
        Reply::Disposal(disposal) => put_disposal(out, disposal),
        Reply::Edited(number, verdict) => put_edited(out, number, verdict),
        Reply::NoRow => put(out, b"norow"),
        Reply::Busy(row) => put_count(out, b"busy ", row),
        Reply::Again(row) => put_count(out, b"again ", row),
        Reply::Disposed(owner) => put_count(out, b"disposed ", owner),
        Reply::Full(number) => put_count(out, b"full ", number),
    }
}

/// A value that was got, and its number.
fn put_got(out: &mut Vec<u8>, texts: &Texts, code: Code, number: u32) -> Result<(), NoMemory>
    ensures { OnOk result (out.new.items ≡ out.old.items ++ (codes "get " ++ code_text texts.now code ++ codes " at " ++ decimal number)) }
{
    put(out, b"get ")?;
    put_code(out, texts, code)?;
    put_count(out, b" at ", number)
}

/// What came of each effect.
fn put_pumped(out: &mut Vec<u8>, pumped: Pumped) -> Result<(), NoMemory>
    ensures { OnOk result (out.new.items ≡ out.old.items ++ (codes "pump ran " ++ decimal pumped.ran ++ codes " same " ++ decimal pumped.same ++ codes " gone " ++ decimal pumped.gone ++ codes " left " ++ decimal pumped.left)) }
{
    put_count(out, b"pump ran ", pumped.ran)?;
    put_count(out, b" same ", pumped.same)?;
    put_count(out, b" gone ", pumped.gone)?;
    put_count(out, b" left ", pumped.left)
}

/// How many owners were disposed now, and how many before.
fn put_disposal(out: &mut Vec<u8>, disposal: Disposal) -> Result<(), NoMemory>
    ensures { OnOk result (out.new.items ≡ out.old.items ++ (codes "dispose now " ++ decimal disposal.now ++ codes " before " ++ decimal disposal.before)) }
{
    put_count(out, b"dispose now ", disposal.now)?;
    put_count(out, b" before ", disposal.before)
}

/// An edit's number, and what came of it.
fn put_edited(out: &mut Vec<u8>, number: u32, verdict: Verdict) -> Result<(), NoMemory>
    ensures { OnOk result (out.new.items ≡ out.old.items ++ (codes "edit " ++ decimal number ++ codes " " ++ verdict_text verdict)) }
{
    put_count(out, b"edit ", number)?;
    put(out, b" ")?;
    put(out, verdict_word(verdict))
}

/// What came of an edit, in a word.
fn verdict_word(verdict: Verdict) -> &'static [u8]
    ensures { result.now ≡ verdict_text verdict }
{
    match verdict {
        Verdict::Done => b"done",
        Verdict::Present => b"present",
        Verdict::Absent => b"absent",
        Verdict::AtMax => b"max",
    }
}
