//! The steps that a desk makes.

ghost use Rattle.std.specs.Prelude.{◌≡◌, ◌≤◌, ◌-◌, ℕ, List, length, OnOk, OnErr, IfOk, IfErr, Some};
ghost use Rattle.vec_history.specs.declared.event.Act.{Act};
ghost use Rattle.vec_steps.specs.declared.fault.StepFault.TheVariants.{Memory};
ghost use Rattle.vec_steps.specs.Index.{Index, IsShaped, IsLegal, IsOfParams};
ghost use Rattle.vec_steps.specs.Doing.{settled};
ghost use Rattle.vec_steps.specs.Telling.{fault_step};
ghost use Rattle.vec_steps.specs.Desks.{Desk, Asks, WantsMemory, IsCountedIn, spare_after};
ghost use Rattle.vec_steps.specs.Calls.{Stepped, Failed, Settles, NotSettled, Goes, made_by, count_made};

use crate::ask::Ask;
use crate::fault::StepFault;
use crate::told::Told;
use vec_names::Params;

/// One activity's way to an index that others may change between its steps.
pub trait Steps {
    /// What no call changes of it.
    ghost desk: { Self → Desk };

    /// The acts that it has seen, its own among them.
    ghost seen: { Self → List Act };

    /// For how many acts of its own it has room in reserve.
    ghost spare: { Self → ℕ };

    /// The bases over which its history is legal and leads to the state that it holds.
    ghost stands: { Self → Index → Type 0 };

    /// The first is a later state of the second.
    ghost comes_from: { Self → Self → Type 0 };

    /// The number by which its acts are known.
    fn number(&self) -> u32
        ensures { result ≡ (desk self.now).number };

    /// The index's parameters.
    fn params(&self) -> Params
        ensures { result ≡ (desk self.now).params };

    /// How many acts it has seen.
    fn front(&self) -> u64
        ensures { result ≡ length (seen self.now) };

    /// Does what is asked, and tells what became of it.
    fn step(&mut self, ask: &mut Ask, told: &mut Told) -> Result<(), StepFault>
        requires { length told.old.bits ≡ (desk self.old).params.bits }
        ensures goes { Goes desk stands comes_from (Asks (stands self.old) (desk self.old) (seen self.old) ask.old) self.old self.new }
        ensures bits { length told.new.bits ≡ (desk self.old).params.bits }
        ensures ok { OnOk result (Stepped (Asks (stands self.old) (desk self.old) (seen self.old) ask.old) (desk self.old)
            (seen self.old) (seen self.new) ask.old ask.new told.new) }
        ensures err { IfErr result (Failed (Asks (stands self.old) (desk self.old) (seen self.old) ask.old) (desk self.old)
            (seen self.old) (seen self.new) ask.old) }
        ensures same { OnErr result (ask.new ≡ ask.old) }
        ensures wants { IfErr result (λ fault. fault ≡ Memory → WantsMemory (spare self.old) ask.old) }
        ensures spare { OnOk result (spare_after ask.old (spare self.old) (count_made (desk self.old).params ask.old told.new)
            ≤ spare self.new) }
        ensures spare_kept { IfErr result (λ fault. spare self.old - length (made_by (desk self.old).params (fault_step fault))
            ≤ spare self.new) };

    /// Brings all lasting events that it has seen to the disks, and tells how many are there.
    fn settle(&mut self) -> Result<u64, StepFault>
        ensures goes { Goes desk stands comes_from (stands self.old) self.old self.new }
        ensures ok { IfOk result (Settles (desk self.old) (seen self.old) (seen self.new)) }
        ensures err { IfErr result (NotSettled (desk self.old) (seen self.old) (seen self.new)) }
        ensures spare { spare self.old - 1 ≤ spare self.new };

    /// It stands on bases that pages can hold, of its own method and parameters; over each its history is legal.
    ghost shaped: { (desk : Self) (base : Index) → stands desk base → IsShaped base };

    ghost index: { (d : Self) (base : Index) → stands d base → IsOfParams (desk d).params base };

    ghost legal: { (desk : Self) (base : Index) → stands desk base → IsLegal base (seen desk) };

    /// What is used of the log is counted from a position that it has seen.
    ghost counted: { (d : Self) (base : Index) → stands d base → IsCountedIn (desk d).room (seen d) };

    /// Coming from is reflexive and transitive.
    ghost comes_itself: { (desk : Self) → comes_from desk desk };

    ghost comes_on: { (a b c : Self) → comes_from c b → comes_from b a → comes_from c a };
}
