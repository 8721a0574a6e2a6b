// A watch from its making on, over any list of calls.
ghost use Rattle.std.specs.Prelude.{◌≡◌, vec_len, MatchResult};
ghost use Rattle.topl.specs.Ledger.{Ledger};
ghost use Rattle.topl.specs.History.{Does};
ghost use Rattle.watch.specs.Shows.{Shows};
ghost use Rattle.history.specs.Calls.{call as call_of, answer as answer_of, meant, moment};
ghost use Rattle.history.specs.Whole.{Told, Cut};

use crate::call::{Answer, Call};
use engine::entry::Entry;
use kinds::kind::Kind;
use sources::source::Source;
use std::alloc::{AllocError, Global};
use watch::watch::Watch;

// Makes a watch over a board and a book, makes the calls on it in their order, and gives the answers. Where memory for them gives out, the first of the
// calls were made.
#[tactic(auto, using(crate::proofs::Sizes::watch_fits))]
pub fn history<K: Kind, S: Source<K>>(
    heap: Global,
    board: Vec<K::Value>,
    book: Vec<Entry>,
    calls: &[Call<'_, K::Value>],
    sources: &mut [S],
) -> Result<Vec<Answer>, AllocError>
    ensures { let means = meant K.Kind.class S.Source.waiting S.Source.ending in MatchResult result
        (λ answers. Told K.Kind.class (vec_len board) (vec_len book) (means sources.old) calls.now answers.items (means sources.new))
        (λ _. Cut K.Kind.class (vec_len board) (vec_len book) (means sources.old) calls.now (means sources.new)) }
{
    let mut watch = Watch::<K>::new(board, book);
    let mut answers = Vec::new(heap);
    for call in calls {
        let answer = answer(heap, &mut watch, *call, sources)?;
        answers.push(answer)?;
    }
    Ok(answers)
}

// One call, with its answer.
fn answer<'a, K: Kind, S: Source<K>>(
    heap: Global,
    watch: &mut Watch<'a, K>,
    call: Call<'a, K::Value>,
    sources: &mut [S],
) -> Result<Answer, AllocError>
    ensures { let means = meant K.Kind.class S.Source.waiting S.Source.ending in MatchResult result
        (λ a. (l : Ledger) → Shows watch.old l → (m : Ledger) × Shows watch.new m
        × Does (moment l (means sources.old)) (call_of K.Kind.class call.entry) (answer_of a) (moment m (means sources.new)))
        (λ _. sources.new ≡ sources.old) }
{
    match call {
        Call::Begin {
            table,
            constants,
            cap,
        } => Ok(Answer::from(watch.begin(table, constants, cap))),
        Call::Feed { id, values } => Ok(Answer::from(watch.feed(id, values))),
        // Kept an index test: of `sources` after a `get_mut` the proof knows the length alone, so its goal `returns-in-Some` stays open.
        Call::Draw(k) => {
            if k >= sources.len() {
                return Ok(Answer::NoSource);
            }
            Ok(Answer::from(watch.draw(&mut sources[k])))
        }
        Call::Close => Ok(Answer::from(watch.close())),
        Call::Verdict => Ok(Answer::Tells(watch.verdict())),
        Call::Path(bytes) => {
            let mut page = Vec::from_slice(heap, bytes)?;
            match watch.path(&mut page) {
                Ok(steps) => Ok(Answer::Wrote { steps, page }),
                Err(refusal) => Ok(Answer::Unwritten { refusal, page }),
            }
        }
    }
}
