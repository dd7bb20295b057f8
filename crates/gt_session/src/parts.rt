// The partitions and the map of paths, as a session sees them.
ghost use Rattle.std.specs.Prelude.{◌≡◌, ◌≤◌, ◌∷◌, [], ℕ, List, Option, Result, Some, None, Ok, Err, true, false, IfSome, IfOk, IfErr};
ghost use Rattle.std.specs.Option.{option_map};
ghost use Rattle.std.specs.List.{IsAmong};
ghost use Rattle.gt_model.specs.declared.done.Done.{Done};
ghost use Rattle.gt_model.specs.declared.event.Event.{Event};
ghost use Rattle.gt_model.specs.declared.refusal.Refusal.{Refusal};
ghost use Rattle.gt_model.specs.declared.who.Who.{Who};
ghost use Rattle.gt_session.specs.Sessions.{IsPartition};
ghost use Rattle.gt_pins.specs.Ends.{ends};
ghost use Rattle.gt_session.specs.Courses.{MapEvent, ask, assign};
ghost use Rattle.gt_session.specs.Calls.{GivesPass, IsHeld, as_found, ended};

use crate::Numbered;
use gt_model::{Answer, Refusal, Who};
use gt_name::{Name, RefName, RepoPath};
use gt_stage::Stage;
use std::alloc::Global;

/// The partitions and the map of paths as a session sees them. A pass is the leave to read a live transaction's position, and
/// to end it. It stands for it by its partition and its number.
pub trait Parts {
    type Pass: Numbered;

    /// The numbers of the passes that are live, by partition.
    ghost live: { Self → ℕ → List ℕ };

    /// The partition of a path, none where it has none yet.
    ghost home: { Self → List ℕ → Option ℕ };

    /// What may follow a call on a partition: its number, who asked, the event, its answer, the number of the pass that is
    /// given, and the partitions before and after it.
    ghost did: { ℕ → Who → Event → Result Done Refusal → Option ℕ → Self → Self → Type 0 };

    /// What may follow a call on the map: who asked, the path, the event, its answer, and the partitions before and after it.
    ghost mapped: { Who → List ℕ → MapEvent → Result (Option ℕ) Refusal → Self → Self → Type 0 };

    /// The partition of a path.
    fn route(&mut self, alloc: Global, who: Who, path: &RepoPath) -> Result<Option<u8>, Refusal>
        ensures mapped { mapped who path.now ask result self.old self.new }
        ensures home { IfOk result (λ found. found ≡ home self.new path.now) }
        ensures range { IfOk result (λ found. IfSome found IsPartition) }
        ensures refusal { IfErr result (λ why. why ≡ Refusal.Memory) }
        ensures live { live self.new ≡ live self.old };

    /// Gives a path a partition, where it has none yet: this one, or one of the map's choice.
    fn assign(
        &mut self,
        alloc: Global,
        who: Who,
        path: &RepoPath,
        kin: Option<u8>,
    ) -> Result<u8, Refusal>
        requires kin { IfSome kin IsPartition }
        ensures mapped { mapped who path.now (assign kin) (as_found result) self.old self.new }
        ensures home { IfOk result (λ n. home self.new path.now ≡ Some n) }
        ensures kept { (n : ℕ) → home self.old path.now ≡ Some n → IfOk result (λ m. m ≡ n) }
        ensures range { IfOk result IsPartition }
        ensures live { live self.new ≡ live self.old };

    /// Makes a repository, or a pool.
    fn create(
        &mut self,
        alloc: Global,
        partition: u8,
        who: Who,
        path: &RepoPath,
        pool: bool,
    ) -> Answer
        requires home { home self.old path.now ≡ Some partition }
        ensures did { did partition who (Event.Create path.now pool) result None self.old self.new }
        ensures live { live self.new ≡ live self.old };

    /// Deletes a repository.
    fn delete(&mut self, alloc: Global, partition: u8, who: Who, path: &RepoPath) -> Answer
        requires home { home self.old path.now ≡ Some partition }
        ensures did { did partition who (Event.Delete path.now) result None self.old self.new }
        ensures live { live self.new ≡ live self.old };

    /// Begins a transaction, and gives its pass.
    fn begin(
        &mut self,
        alloc: Global,
        partition: u8,
        who: Who,
        path: &RepoPath,
        seen: u64,
        pass: &mut Option<Self::Pass>,
    ) -> Answer
        requires home { home self.old path.now ≡ Some partition }
        requires none { pass.old ≡ None }
        ensures did { did partition who (Event.Begin path.now seen) result (option_map Self.Pass.number pass.new) self.old self.new }
        ensures gives { GivesPass result (option_map Self.Pass.number pass.new) partition (live self.old) (live self.new) };

    /// What a reference names.
    fn get_ref(
        &mut self,
        alloc: Global,
        partition: u8,
        who: Who,
        pass: &mut Self::Pass,
        name: &RefName,
    ) -> Answer
        requires { IsAmong (live self.old partition) (Self.Pass.number pass.old) }
        ensures did { did partition who (Event.GetRef (Self.Pass.number pass.old) name.now) result None self.old self.new }
        ensures pass { Self.Pass.number pass.new ≡ Self.Pass.number pass.old }
        ensures live { live self.new ≡ live self.old };

    /// The references whose names begin so.
    fn list_refs(
        &mut self,
        alloc: Global,
        partition: u8,
        who: Who,
        pass: &mut Self::Pass,
        prefix: &[u8],
    ) -> Answer
        requires { IsAmong (live self.old partition) (Self.Pass.number pass.old) }
        ensures did { did partition who (Event.ListRefs (Self.Pass.number pass.old) prefix.now) result None self.old self.new }
        ensures pass { Self.Pass.number pass.new ≡ Self.Pass.number pass.old }
        ensures live { live self.new ≡ live self.old };

    /// The record of an object.
    fn cat(
        &mut self,
        alloc: Global,
        partition: u8,
        who: Who,
        pass: &mut Self::Pass,
        name: &Name,
    ) -> Answer
        requires { IsAmong (live self.old partition) (Self.Pass.number pass.old) }
        ensures did { did partition who (Event.Cat (Self.Pass.number pass.old) name.now) result None self.old self.new }
        ensures pass { Self.Pass.number pass.new ≡ Self.Pass.number pass.old }
        ensures live { live self.new ≡ live self.old };

    /// Commits what is staged. Where that ends the transaction, its pass is gone.
    fn commit(
        &mut self,
        alloc: Global,
        partition: u8,
        who: Who,
        pass: &mut Option<Self::Pass>,
        stage: &Stage,
    ) -> Answer
        requires { IfSome pass.old (λ p. IsAmong (live self.old partition) (Self.Pass.number p)) × (pass.old ≡ None → ⊥) }
        ensures did { IfSome pass.old (λ p. did partition who (Event.Commit (Self.Pass.number p) stage.now.staged.refs stage.now.staged.records) result None self.old self.new) }
        ensures ended { ends result ≡ true → (pass.new ≡ None) × IfSome pass.old (λ p. live self.new ≡ ended (live self.old) partition (Self.Pass.number p)) }
        ensures open { ends result ≡ false → (option_map Self.Pass.number pass.new ≡ option_map Self.Pass.number pass.old) × (live self.new ≡ live self.old) };

    /// Gives a transaction up. It takes no memory.
    fn abort(&mut self, partition: u8, who: Who, pass: Self::Pass) -> Answer
        requires { IsAmong (live self.old partition) (Self.Pass.number pass) }
        ensures aborted { result ≡ Ok Done.Aborted }
        ensures did { did partition who (Event.Abort (Self.Pass.number pass)) result None self.old self.new }
        ensures live { live self.new ≡ ended (live self.old) partition (Self.Pass.number pass) };

    /// Applies the next entries of a partition's log, as many as this at most.
    fn apply(&mut self, alloc: Global, partition: u8, who: Who, n: u32) -> Answer
        requires one { partition ≡ 1 }
        requires some { 1 ≤ n }
        requires most { n ≤ 16 }
        ensures did { did partition who (Event.Apply n) result None self.old self.new }
        ensures live { live self.new ≡ live self.old };
}
