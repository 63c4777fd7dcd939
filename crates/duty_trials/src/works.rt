//! The trial of a list of calls.
ghost use Rattle.std.specs.Prelude.{◌≡◌, ◌<◌, ◌≤◌, ◌+◌, ℕ, true, false, length, get_or, None, IsTrue, IsSome};
ghost use Rattle.page_geometry.specs.Ideal as act;
ghost use Rattle.algo_calls.specs.Duties.{Acting, part, ready};
ghost use Rattle.duty_trials.specs.declared.list.Work.TheVariants as a_work;
ghost use Rattle.duty_trials.specs.Lists.{count_of, HasFunction, MayWork, work_on};
ghost use Rattle.duty_trials.specs.Subjects.{board_in, algorithm_in, setup_for, site_in};
ghost use Rattle.duty_trials.specs.Ended.{TriesCall, TriesMember, BreaksAt, IfBroken};
ghost use Rattle.duty_trials.specs.Stands.{setup_in, state_in, world_in};
ghost use Rattle.duty_trials.specs.Tallies.{calls_in};

use crate::ideal::{Filling, fill};
use crate::list::{Ended, Turn, Work};
use crate::stand::{Stand, Tried};
use crate::subject::Subject;
use algo_calls::Call;

/// Whether a set has a member.
fn has_member(set: &[bool]) -> bool
    ensures { IsTrue result → (k : ℕ) × (get_or set.now k false ≡ true) }
{
    for member in set {
        if *member {
            return true;
        }
    }
    false
}

impl Stand {
    /// Erases a sector, and writes what the ideal device leaves.
    fn try_sector(&mut self, subject: &Subject<'_>, number: u32, ideal: &mut [u8]) -> Tried
        requires setup { setup_in self.old ≡ setup_for subject.now }
        requires cells { (world_in self.old).cells ≡ ideal.old }
        requires long { length ideal.old ≡ subject.now.cells }
        requires idle { (state_in self.old).operation ≡ None }
        requires number { number < length (site_in subject.now).layout.sectors }
        ensures tries { TriesCall (setup_in self.old) (site_in subject.now) (Acting (act.EraseSector number)) ideal.old ideal.new
            (world_in self.old) (world_in self.new) (state_in self.new).operation result }
        ensures setup { setup_in self.new ≡ setup_in self.old }
        ensures calls { calls_in self.new.tally ≤ calls_in self.old.tally + 1 }
    {
        let span = subject.sector(number);
        fill(ideal, span.from, span.to, subject.algorithm.device.empty);
        let at = span.address;
        self.step(&Call::EraseSector { at }, &[], span.from, span.to, ideal)
    }

    /// Erases all sectors, and writes what the ideal device leaves.
    fn try_chip(&mut self, subject: &Subject<'_>, ideal: &mut [u8]) -> Tried
        requires setup { setup_in self.old ≡ setup_for subject.now }
        requires cells { (world_in self.old).cells ≡ ideal.old }
        requires long { length ideal.old ≡ subject.now.cells }
        requires idle { (state_in self.old).operation ≡ None }
        requires function { IsSome (algorithm_in subject.now).entries.erase_chip }
        ensures tries { TriesCall (setup_in self.old) (site_in subject.now) (Acting act.EraseChip) ideal.old ideal.new
            (world_in self.old) (world_in self.new) (state_in self.new).operation result }
        ensures setup { setup_in self.new ≡ setup_in self.old }
        ensures calls { calls_in self.new.tally ≤ calls_in self.old.tally + 1 }
    {
        let span = subject.whole();
        fill(ideal, span.from, span.to, subject.algorithm.device.empty);
        self.step(&Call::EraseChip, &[], span.from, span.to, ideal)
    }

    /// Programs an empty page, and writes what the ideal device leaves.
    fn try_page(
        &mut self,
        subject: &Subject<'_>,
        number: u32,
        filling: &Filling,
        ideal: &mut [u8],
    ) -> Tried
        requires setup { setup_in self.old ≡ setup_for subject.now }
        requires cells { (world_in self.old).cells ≡ ideal.old }
        requires long { length ideal.old ≡ subject.now.cells }
        requires idle { (state_in self.old).operation ≡ None }
        requires number { number < length (site_in subject.now).layout.pages }
        requires empty { MayWork (setup_for subject.now) (site_in subject.now) ideal.old a_work.Pages number }
        ensures tries { TriesCall (setup_in self.old) (site_in subject.now)
            (work_on (setup_for subject.now) (site_in subject.now).layout a_work.Pages (part (site_in subject.now) ideal.new) number) ideal.old ideal.new
            (world_in self.old) (world_in self.new) (state_in self.new).operation result }
        ensures setup { setup_in self.new ≡ setup_in self.old }
        ensures calls { calls_in self.new.tally ≤ calls_in self.old.tally + 1 }
    {
        let span = subject.page(number);
        filling.put(ideal, span.from, span.to);
        let at = span.address;
        let wanted: &[u8] = ideal;
        let bytes = &wanted[span.from as usize..span.to as usize];
        self.step(&Call::ProgramPage { at }, bytes, span.from, span.to, wanted)
    }

    /// Verifies a page with the bytes that it holds.
    fn try_check(&mut self, subject: &Subject<'_>, number: u32, ideal: &[u8]) -> Tried
        requires setup { setup_in self.old ≡ setup_for subject.now }
        requires cells { (world_in self.old).cells ≡ ideal.now }
        requires long { length ideal.now ≡ subject.now.cells }
        requires idle { (state_in self.old).operation ≡ None }
        requires number { number < length (site_in subject.now).layout.pages }
        requires function { IsSome (algorithm_in subject.now).entries.verify }
        ensures tries { TriesCall (setup_in self.old) (site_in subject.now)
            (work_on (setup_for subject.now) (site_in subject.now).layout a_work.Checks (part (site_in subject.now) ideal.now) number) ideal.now ideal.now
            (world_in self.old) (world_in self.new) (state_in self.new).operation result }
        ensures setup { setup_in self.new ≡ setup_in self.old }
        ensures calls { calls_in self.new.tally ≤ calls_in self.old.tally + 1 }
    {
        let span = subject.page(number);
        let at = span.address;
        let bytes = &ideal[span.from as usize..span.to as usize];
        self.step(&Call::Verify { at }, bytes, 0, 0, ideal)
    }

    /// Makes the call that works on a sector or page, and writes what the ideal device leaves.
    fn try_work(
        &mut self,
        subject: &Subject<'_>,
        work: Work,
        number: u32,
        filling: &Filling,
        ideal: &mut [u8],
    ) -> Tried
        requires setup { setup_in self.old ≡ setup_for subject.now }
        requires cells { (world_in self.old).cells ≡ ideal.old }
        requires long { length ideal.old ≡ subject.now.cells }
        requires idle { (state_in self.old).operation ≡ None }
        requires number { number < count_of (site_in subject.now).layout work }
        requires function { HasFunction (algorithm_in subject.now).entries work }
        requires may { MayWork (setup_for subject.now) (site_in subject.now) ideal.old work number }
        ensures tries { TriesCall (setup_in self.old) (site_in subject.now)
            (work_on (setup_for subject.now) (site_in subject.now).layout work (part (site_in subject.now) ideal.new) number) ideal.old ideal.new
            (world_in self.old) (world_in self.new) (state_in self.new).operation result }
        ensures setup { setup_in self.new ≡ setup_in self.old }
        ensures calls { calls_in self.new.tally ≤ calls_in self.old.tally + 1 }
    {
        match work {
            Work::Sectors => self.try_sector(subject, number, ideal),
            Work::Chip => self.try_chip(subject, ideal),
            Work::Pages => self.try_page(subject, number, filling, ideal),
            Work::Checks => self.try_check(subject, number, ideal),
        }
    }

    /// Makes the call for a sector or page if the set has it, and writes what the ideal device leaves.
    fn try_member(
        &mut self,
        subject: &Subject<'_>,
        work: Work,
        set: &[bool],
        number: u32,
        filling: &Filling,
        ideal: &mut [u8],
    ) -> Tried
        requires setup { setup_in self.old ≡ setup_for subject.now }
        requires cells { (world_in self.old).cells ≡ ideal.old }
        requires long { length ideal.old ≡ subject.now.cells }
        requires idle { (state_in self.old).operation ≡ None }
        requires set { length set.now ≡ count_of (site_in subject.now).layout work }
        requires number { number < length set.now }
        requires function { HasFunction (algorithm_in subject.now).entries work }
        requires may { get_or set.now number false ≡ true → MayWork (setup_for subject.now) (site_in subject.now) ideal.old work number }
        ensures tries { TriesMember (setup_in self.old) (setup_for subject.now) (site_in subject.now) work set.now number ideal.old ideal.new
            (world_in self.old) (world_in self.new) (state_in self.old).operation (state_in self.new).operation result }
        ensures setup { setup_in self.new ≡ setup_in self.old }
        ensures calls { calls_in self.new.tally ≤ calls_in self.old.tally + 1 }
    {
        if set[number as usize] {
            self.try_work(subject, work, number, filling, ideal)
        } else {
            Tried::Kept
        }
    }

    /// Makes the calls of a list up to the first that breaks its duty: Init, one call for each member of the set in rising order, and
    /// UnInit. `ideal` is the cells before the list; then it is what the ideal device leaves after the last call. Pages to be programmed
    /// are empty.
    ///
    /// A set without members has no such list, and no call is made.
    pub fn try_list(
        &mut self,
        subject: &Subject<'_>,
        work: Work,
        set: &[bool],
        filling: &Filling,
        ideal: &mut [u8],
    ) -> Ended
        requires stands { world_in self.old ≡ ready (board_in subject.now) (algorithm_in subject.now) ideal.old }
        requires setup { setup_in self.old ≡ setup_for subject.now }
        requires idle { (state_in self.old).operation ≡ None }
        requires long { length ideal.old ≡ subject.now.cells }
        requires set { length set.now ≡ count_of (site_in subject.now).layout work }
        requires function { HasFunction (algorithm_in subject.now).entries work }
        requires may { (k : ℕ) → get_or set.now k false ≡ true → MayWork (setup_for subject.now) (site_in subject.now) ideal.old work k }
        ensures broken { IfBroken result (BreaksAt (board_in subject.now) (algorithm_in subject.now) subject.now.region work set.now ideal.old ideal.new) }
        ensures calls { calls_in self.new.tally ≤ calls_in self.old.tally + (length set.now + 2) }
    {
        if !has_member(set) {
            return Ended::Kept;
        }
        let kind = work.kind();
        match self.step(&Call::Init { kind }, &[], 0, 0, ideal) {
            Tried::Kept => {}
            other => return Ended::at(Turn::Init, other),
        }
        for number in 0..subject.count(work) {
            match self.try_member(subject, work, set, number, filling, ideal) {
                Tried::Kept => {}
                other => return Ended::at(Turn::Member(number), other),
            }
        }
        let last = self.step(&Call::UnInit { kind }, &[], 0, 0, ideal);
        Ended::at(Turn::UnInit, last)
    }
}
