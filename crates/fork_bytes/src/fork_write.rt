//! A plan beside the fork that it is of.
ghost use Rattle.std.specs.Prelude.{◌≡◌, ℕ, List};
ghost use Rattle.fork_bytes.specs.Plan.{IsForkPlan};

use crate::fork::Fork;
use crate::laws::plans_say_bytes;
use crate::plan::ForkPlan;
use std::marker::Model;
use std::snapshot::Snapshot;

/// What a plan does to the fork that it is of. Contracts see the fork's bytes before it and afterwards.
#[derive(Drop)]
pub struct ForkWrite {
    plan: ForkPlan,
    before: Snapshot<Fork>,
}

impl Model for ForkWrite {
    ghost use Rattle.fork_bytes.specs.Plan.{bytes_after, ForkWriteState, IsForkPlan};

    ghost Value = { ForkWriteState };

    ghost view = { λ a. record { before = a.before.value; after = bytes_after a.before.value a.plan } };

    ghost invariant = { λ a. IsForkPlan a.before.value (bytes_after a.before.value a.plan) a.plan };
}

impl ForkWrite {
    /// A plan of this fork as it is, as what it does.
    pub fn of(fork: &Fork, plan: ForkPlan) -> ForkWrite
        requires { (after : List ℕ) × IsForkPlan fork.now after plan }
        ensures before { result.before ≡ fork.now }
        ensures after { (after : List ℕ) → IsForkPlan fork.now after plan → result.after ≡ after }
    {
        plans_say_bytes();
        ForkWrite {
            plan,
            before: Snapshot::of(fork),
        }
    }

    /// The plan, lent.
    pub fn plan(&self) -> &ForkPlan
        ensures { IsForkPlan self.now.before self.now.after result.now }
    {
        &self.plan
    }
}

impl Fork {
    /// Carries out what a plan of this fork as it is does. It takes no memory.
    pub fn apply_write(&mut self, write: ForkWrite)
        requires { write.before ≡ self.old }
        ensures { self.new ≡ write.after }
    {
        self.apply(write.plan);
    }
}
