// A sheet from a place on: the record that stands there, and what the rest says.
ghost use Rattle.std.specs.Prelude.{drop};
ghost use Rattle.sheet.specs.Limits.{key_limit};
ghost use Rattle.sheet.specs.Judgement.{judged_of, JudgedAs};
ghost use Rattle.sheet.specs.Sheet.{read_from, ReadAs};

use crate::{Finding, Gathered, Judged, Reading, SheetFault, SheetRefusal};
use octets::tail;

/// The record at a place, judged against what was gathered of those before it. Behind the sheet's end there is none: it
/// is cut short.
///
/// Ruled out: a judge that reads the first record wherever it is asked; one that takes a place behind the end for the
/// end record.
pub fn judge_at(s: &[u8], at: usize, gathered: Gathered) -> Judged
    ensures { JudgedAs result (judged_of key_limit (drop at s.now) gathered) }
{
    crate::judge(tail(s, at), gathered)
}

/// The records from a place on, against what was gathered of those before it: what the sheet says, or the first refusal
/// with its place. From a place behind the end that is the sheet's length.
///
/// Ruled out: a reader that counts its places from where it starts; one that refuses at a place past the sheet.
pub fn read_from(s: &[u8], from: usize, before: Gathered) -> Result<Reading, SheetRefusal>
    ensures { ReadAs result (read_from key_limit s.now from before) }
{
    // no record stands there, and nothing is copied to gather it in
    if s.len() <= from {
        return Err(SheetRefusal {
            fault: SheetFault::Cut,
            at: s.len(),
        });
    }
    let mut at = from;
    let mut gathered = before;
    while at < s.len() {
        match crate::judge_in(tail(s, at), &mut gathered) {
            Err(fault) => return Err(SheetRefusal { fault, at }),
            Ok(Finding::Ended) => {
                if at + 1 < s.len() {
                    return Err(SheetRefusal {
                        fault: SheetFault::Tail,
                        at: at + 1,
                    });
                }
                return Ok(Reading {
                    terms: gathered.terms,
                    keys: gathered.marks.keys,
                });
            }
            Ok(Finding::Taken(n)) => {
                // `at` goes on by what the record takes
                at += n;
            }
        }
    }
    Err(SheetRefusal {
        fault: SheetFault::Cut,
        at: s.len(),
    })
}
