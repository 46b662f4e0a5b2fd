// The functions of `replay` that programs in C call, under the names and the layout that include/tuyqorem.h declares: a slice is a pointer and a length.
#![tactic(auto)]

ghost use Rattle.std.specs.Prelude.{◌≡◌};
ghost use Rattle.shift.specs.Meaning.{ShiftTells};
ghost use Rattle.ledger.specs.Demands.{Demand3, Withdraws};
ghost use Rattle.block.specs.Views.{paired};
ghost use Rattle.journal.specs.Journal.{front, decode};
ghost use Rattle.journal.specs.Replies.{reply_to};
ghost use Rattle.replay.specs.Returned.{book_after, page_after, value_after, look_by, by_kind};
ghost use Rattle.replay.specs.Returned.{returned, look_returned, page_returned, value_returned, shift_by, shift_returned, replied};

#[unsafe(no_mangle)]
pub extern "C" fn tuyqorem_look_after(
    age_limit: u64,
    calls: &[u8],
    kind: u64,
    year: u64,
    out: &mut [u8],
) -> u64
    ensures returned { returned result out.new ≡ look_returned (look_by age_limit calls.now kind year) out.old }
    ensures told { Demand3 age_limit (decode calls.now) }
{
    replay::tuyqorem_look_after(age_limit, calls, kind, year, out)
}

#[unsafe(no_mangle)]
pub extern "C" fn tuyqorem_page_after(
    age_limit: u64,
    calls: &[u8],
    kind: u64,
    out: &mut [u8],
) -> u64
    ensures returned { returned result out.new ≡ page_returned (page_after age_limit calls.now (by_kind kind) out.old) }
    ensures told { Demand3 age_limit (decode calls.now) }
{
    replay::tuyqorem_page_after(age_limit, calls, kind, out)
}

#[unsafe(no_mangle)]
pub extern "C" fn tuyqorem_value_after(
    age_limit: u64,
    calls: &[u8],
    flows: &[u64],
    out: &mut [u8],
) -> u64
    ensures returned { returned result out.new ≡ value_returned (value_after age_limit calls.now flows.now) out.old }
    ensures told { Demand3 age_limit (decode calls.now) }
{
    replay::tuyqorem_value_after(age_limit, calls, flows, out)
}

#[unsafe(no_mangle)]
pub extern "C" fn tuyqorem_shift(sheet: &[u8], flows: &[u64], target: u64, out: &mut [u8]) -> u64
    ensures returned { returned result out.new ≡ shift_returned (shift_by sheet.now flows.now target) out.old }
    ensures told { ShiftTells sheet.now (paired flows.now) target (shift_by sheet.now flows.now target) }
{
    replay::tuyqorem_shift(sheet, flows, target, out)
}

#[unsafe(no_mangle)]
pub extern "C" fn tuyqorem_answer_after(age_limit: u64, calls: &[u8], call: &[u8]) -> u64
    ensures returned { result ≡ replied (reply_to (book_after age_limit calls.now) (front call.now)) }
    ensures told { Withdraws age_limit (decode calls.now) }
{
    replay::tuyqorem_answer_after(age_limit, calls, call)
}
