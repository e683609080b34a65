// Reading a call list: the whole list is checked before anything is returned, and a body's values are not looked at.
#![tactic(auto)]

ghost use Rattle.std.specs.Prelude.{◌≡◌};
ghost use Rattle.host_call_list.specs.CallList.{list_answer, count_of, call_at_of, checked_of};

use host_calls::call::body_length;

// A call of a list: its kind, and the place of its body.
// `c_values::Call` has the size beside it, which the kind fixes.
#[derive(Clone, Copy, PartialEq, Eq)]
pub struct CallRecord {
    pub kind: u8,
    pub body: usize,
}

// A list in which a kind is unknown or a body is cut.
#[derive(Clone, Copy, PartialEq, Eq)]
pub struct InvalidList;

// Checks the whole list: the number of its calls, and the call at an index, counted from 0.
// A while: the calls differ in length, so no iterator of std gives them.
fn check(list: &[u8], index: usize) -> Result<(usize, Option<CallRecord>), InvalidList>
    ensures { list_answer result ≡ checked_of list.now index }
{
    let mut rest = list;
    let mut count = 0;
    let mut call = None;
    while let Some((&kind, tail)) = rest.split_first() {
        let size = body_length(kind).ok_or(InvalidList)?;
        rest = tail.get(size..).ok_or(InvalidList)?;
        if count == index {
            let body = list.len() - tail.len();
            call = Some(CallRecord { kind, body });
        }
        count += 1;
    }
    Ok((count, call))
}

// The number of calls of a list.
#[tactic(auto, using(crate::proofs::Listing::count_lem, crate::proofs::Listing::invalid))]
pub fn count_calls(list: &[u8]) -> Result<usize, InvalidList>
    ensures { list_answer result ≡ count_of list.now }
{
    let (count, _) = check(list, 0)?;
    Ok(count)
}

// The call at an index, counted from 0; an invalid list has none, whatever the index.
#[tactic(auto, using(crate::proofs::Listing::call_at_lem, crate::proofs::Listing::invalid))]
pub fn call_at(list: &[u8], index: usize) -> Result<Option<CallRecord>, InvalidList>
    ensures { list_answer result ≡ call_at_of list.now index }
{
    let (_, call) = check(list, index)?;
    Ok(call)
}
