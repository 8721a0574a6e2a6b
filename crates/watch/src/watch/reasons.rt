// Why a call of a watch is refused, in the order in which the reasons are tried.
ghost use Rattle.std.specs.Prelude.{◌≡◌, length, map, vec_len, MatchResult};
ghost use Rattle.kinds.specs.declared.refusal.Layer.TheVariants.{Watch as of_watch};
ghost use Rattle.topl.specs.Ledger.{opening_reason, phase_reason, count_reason, other_arity};
ghost use Rattle.topl.specs.Table.{Table as Property};
ghost use Rattle.watch.specs.Answers.{RefusedFor, Checks};
ghost use Rattle.watch.specs.Stages.{phase_of};
ghost use Rattle.watch.specs.declared.held.Stage.TheVariants.{Running};
ghost use Rattle.tables.specs.Properties.{method};

use crate::held::Stage;
use crate::watch::Watch;
use kinds::kind::Kind;
use kinds::refusal::{Layer, Reason, Refusal};
use kinds::watch_reason::WatchReason;
use property::table::Method;
use sources::event::make::{LAST_ID, is_return, method_of, most_values};
use tables::table::Table;

impl<'a, K: Kind> Watch<'a, K> {
    // The refusal for a reason, placed at the judged count.
    pub(crate) fn refuse<R: Into<Reason>>(&self, reason: R) -> Refusal
        ensures reason { R.converts reason result.reason }
        ensures placed { (result.layer ≡ of_watch) × (result.place ≡ self.now.held.judged) }
    {
        Layer::Watch.refusal(reason.into(), self.held.judged)
    }

    // The table of a watch that runs; a feed, a draw and a close of any other are refused by its phase.
    pub(crate) fn running(&self) -> Result<&'a Table, Refusal>
        ensures { MatchResult result (λ x. self.now.held.stage ≡ Running x)
            (λ f. RefusedFor (phase_reason (phase_of self.now.held.stage)) self.now.held.judged f) }
    {
        let reason = match self.held.stage {
            Stage::Running(table) => return Ok(table),
            Stage::Blank => WatchReason::NotBegun,
            Stage::Broken(_) => WatchReason::IsBroken,
            Stage::Spilled => WatchReason::IsSpilled,
            Stage::Full => WatchReason::IsFull,
            Stage::Kept => WatchReason::IsKept,
        };
        Err(self.refuse(reason))
    }

    // Whether it may begin with so many constants, where so many are wanted, and a cap.
    pub(crate) fn may_begin(&self, given: usize, wanted: usize, cap: usize) -> Result<(), Refusal>
        ensures { Checks (opening_reason (phase_of self.now.held.stage) (vec_len self.now.rows.state.grid.board) (length self.now.rows.state.grid.book.entries.items) given wanted cap)
            self.now.held.judged result }
    {
        let Stage::Blank = self.held.stage else {
            return Err(self.refuse(WatchReason::BegunAlready));
        };
        if cap == 0 || cap > 64 {
            return Err(self.refuse(WatchReason::BadCap));
        }
        if given != wanted {
            return Err(self.refuse(WatchReason::OtherConstants));
        }
        if self.rows.board_len() < 40 * cap + 64 || self.rows.book_len() == 0 {
            return Err(self.refuse(WatchReason::SmallBoard));
        }
        Ok(())
    }

    // Whether an event may have this id and so many values.
    pub(crate) fn may_take(&self, methods: &[Method], id: u32, count: usize) -> Result<(), Refusal>
        ensures { (P : Property) → P.methods ≡ map method methods.now → Checks (count_reason P id count) self.now.held.judged result }
    {
        if id > LAST_ID {
            return Err(self.refuse(Reason::WildId));
        }
        if count > most_values(id) {
            return Err(self.refuse(Reason::TooManyValues));
        }
        if !is_return(id) && other_arity(methods, id, count) {
            return Err(self.refuse(WatchReason::OtherArity));
        }
        Ok(())
    }
}

// Whether some declared method has the number of this id, and another arity than so many.
fn other_arity(methods: &[Method], id: u32, count: usize) -> bool
    ensures { result ≡ other_arity (map method methods.now) id count }
{
    methods
        .iter()
        .any(|m| method_of(id) == m.number && count != m.arity)
}
