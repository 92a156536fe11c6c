//! The judge of histories.

ghost use Rattle.std.specs.Prelude.{IfErr, OnOk};
ghost use Rattle.vec_history.specs.Judging.{IsFaultOf};
ghost use Rattle.ivf_graph.specs.Legal.{IsAllowed, IsLegal};

use crate::graph::IvfGraph;
use crate::rules::is_allowed;
use std::alloc::Global;
use vec_history::{Act, AuditFault};

/// Judges the acts of an index of lists that begins at this base: whether each was allowed after the acts
/// before it. `Illegal` names the first that was not. Where memory is wanting nothing is said of the acts. No rule of an
/// index of lists looks back at an earlier state, so the last one alone is kept.
pub fn audit_ivf(alloc: Global, base: &IvfGraph, acts: &[Act]) -> Result<(), AuditFault>
    ensures legal { OnOk result (IsLegal base.now acts.now) }
    ensures fault { IfErr result (IsFaultOf (IsAllowed base.now) acts.now) }
{
    let mut index = base.try_clone(alloc)?;
    for (at, act) in acts.iter().enumerate() {
        if !is_allowed(&index, &acts[..at], act.desk, &act.event) {
            return Err(AuditFault::Illegal { at: at as u64 });
        }
        index.apply(&act.event, alloc)?;
    }
    Ok(())
}
