//! Jumps (1.3.1, "Jump operators").
ghost use Rattle.std.specs.Prelude.{◌≡◌, true};
ghost use Rattle.mix_machine.specs.Prelude.{fits_register, outcome_of};
ghost use Rattle.mix_machine.specs.Jump.{is_taken, is_met, return_address, jump_writes};

use crate::decode::Arguments;
use crate::fault::MixFault;
use crate::plan::{Effects, Outcome, Writes};
use crate::world::World;
use mix_word::{Cmp, Condition, DataReg, JumpKind, Operation, Reg, Sign, Word};

impl World {
    /// A jump that looks at no register.
    #[inline(always)]
    pub(crate) fn jump(&self, kind: JumpKind, a: Arguments) -> Outcome
        ensures { result ≡ outcome_of (Operation.Jump kind) self.now a }
    {
        let taken = self.is_taken(kind);
        if taken && a.m.place().is_none() {
            return Err(MixFault::NoCell);
        }
        Ok(Effects {
            writes: jump_writes(kind, self.return_address(taken)),
            jumps: taken,
        })
    }

    /// A jump by the number in a register.
    #[inline(always)]
    pub(crate) fn register_jump(&self, r: DataReg, condition: Condition, a: Arguments) -> Outcome
        ensures { result ≡ outcome_of (Operation.RegisterJump r condition) self.now a }
    {
        let taken = is_met(condition, self.register(r.reg()));
        if taken && a.m.place().is_none() {
            return Err(MixFault::NoCell);
        }
        Ok(Effects {
            writes: Writes::Register(Reg::J, self.return_address(taken)),
            jumps: taken,
        })
    }

    #[inline(always)]
    fn is_taken(&self, kind: JumpKind) -> bool
        ensures { result ≡ is_taken kind self.now }
    {
        match kind {
            JumpKind::Jmp | JumpKind::Jsj => true,
            JumpKind::Jov => self.over,
            JumpKind::Jnov => !self.over,
            JumpKind::Less => self.cmp == Cmp::Less,
            JumpKind::Equal => self.cmp == Cmp::Equal,
            JumpKind::Greater => self.cmp == Cmp::Greater,
            JumpKind::GreaterEqual => self.cmp != Cmp::Less,
            JumpKind::NotEqual => self.cmp != Cmp::Equal,
            JumpKind::LessEqual => self.cmp != Cmp::Greater,
        }
    }

    /// rJ after a jump: the location after it where it is taken, and else what it was.
    #[inline(always)]
    pub(crate) fn return_address(&self, taken: bool) -> Word
        ensures is { result ≡ return_address self.now taken }
        ensures fits { fits_register Reg.J result ≡ true }
    {
        if taken {
            Word::of(Sign::Plus, u32::from(self.loc) + 1)
        } else {
            self.registers.get(Reg::J)
        }
    }
}

// What a jump writes, by the rJ after it: JSJ leaves it, and JOV and JNOV leave the toggle off.
#[inline(always)]
fn jump_writes(kind: JumpKind, j: Word) -> Writes
    ensures { result ≡ jump_writes kind j }
{
    match kind {
        JumpKind::Jsj => Writes::Nothing,
        JumpKind::Jov | JumpKind::Jnov => Writes::RegisterAndToggle(Reg::J, j, false),
        JumpKind::Jmp | JumpKind::Less | JumpKind::Equal | JumpKind::Greater => {
            Writes::Register(Reg::J, j)
        }
        JumpKind::GreaterEqual | JumpKind::NotEqual | JumpKind::LessEqual => {
            Writes::Register(Reg::J, j)
        }
    }
}

// Whether a register meets what a jump asks of it; -0 is neither negative nor positive.
#[inline(always)]
fn is_met(condition: Condition, word: Word) -> bool
    ensures { result ≡ is_met condition word }
{
    let zero = word.magnitude() == 0;
    let plus = word.sign() == Sign::Plus;
    match condition {
        Condition::Negative => !plus && !zero,
        Condition::Zero => zero,
        Condition::Positive => plus && !zero,
        Condition::NotNegative => plus || zero,
        Condition::NotZero => !zero,
        Condition::NotPositive => !plus || zero,
    }
}
