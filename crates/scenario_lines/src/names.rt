//! The names of hosts and switches, which are few, looked up by their positions.
ghost use Rattle.std.specs.Prelude.{◌≡◌, ◌≤◌, ◌<◌, ◌==◌, length, slice_index, true, false, IfOk, IfSome, OnOk};
ghost use Rattle.std.specs.List.{position, list_any};
ghost use Rattle.lg_model.specs.declared.limits.TheConstants.{MOST_HOSTS};
ghost use Rattle.lg_model.specs.Keeping.{host_names};
ghost use Rattle.scenario_lines.specs.Fields.{GivesField, fresh_name, known_name, position_of, fresh_host, host_position};

use crate::fault::LineFault;
use crate::why::Why;
use lg_model::HostLine;

// The name is none of these.
#[tactic(auto, unfolding(crate::specs::Fields::fresh_name))]
pub(crate) fn fresh_name(names: &[u16], name: u16) -> Result<(), LineFault>
    ensures gives { GivesField (λ x. x) result (fresh_name names.now name) }
    ensures fresh { OnOk result (list_any (λ m. m == name) names.now ≡ false) }
{
    if names.contains(&name) {
        Err(LineFault::Bad(Why::Repeated))
    } else {
        Ok(())
    }
}

// The name is one of these.
#[tactic(auto, unfolding(crate::specs::Fields::known_name))]
pub(crate) fn known_name(names: &[u16], name: u16) -> Result<(), LineFault>
    ensures gives { GivesField (λ x. x) result (known_name names.now name) }
    ensures known { OnOk result (list_any (λ m. m == name) names.now ≡ true) }
{
    if names.contains(&name) {
        Ok(())
    } else {
        Err(LineFault::Bad(Why::UnknownName))
    }
}

fn find(names: &[u16], name: u16) -> Option<usize>
    ensures value { result ≡ position (λ m. m == name) names.now }
    ensures bound { IfSome result (λ i. i < length names.now) }
    ensures named { IfSome result (λ i. slice_index names.now i ≡ name) }
{
    names.iter().position(|m| *m == name)
}

// The position of a name.
#[tactic(auto, unfolding(crate::specs::Fields::position_of))]
pub(crate) fn position_of(names: &[u16], name: u16) -> Result<u16, LineFault>
    requires { length names.now ≤ 65536 }
    ensures gives { GivesField (λ x. x) result (position_of names.now name) }
    ensures bound { IfOk result (λ i. i < length names.now) }
    ensures named { IfOk result (λ i. slice_index names.now i ≡ name) }
{
    match find(names, name) {
        None => Err(LineFault::Bad(Why::UnknownName)),
        Some(i) => Ok(i as u16),
    }
}

fn has_host(hosts: &[HostLine], name: u16) -> bool
    ensures { result ≡ list_any (λ h. h.name == name) hosts.now }
{
    hosts.iter().any(|h| h.name == name)
}

// No host has the name.
#[tactic(auto, unfolding(crate::specs::Fields::fresh_host))]
pub(crate) fn new_host(hosts: &[HostLine], name: u16) -> Result<(), LineFault>
    ensures gives { GivesField (λ x. x) result (fresh_host hosts.now name) }
    ensures fresh { OnOk result (list_any (λ h. h.name == name) hosts.now ≡ false) }
{
    if has_host(hosts, name) {
        Err(LineFault::Bad(Why::Repeated))
    } else {
        Ok(())
    }
}

fn find_host(hosts: &[HostLine], name: u16) -> Option<usize>
    ensures value { result ≡ position (λ h. h.name == name) hosts.now }
    ensures bound { IfSome result (λ i. i < length hosts.now) }
    ensures named { IfSome result (λ i. slice_index (host_names hosts.now) i ≡ name) }
{
    hosts.iter().position(|h| h.name == name)
}

// The position of a host's name.
#[tactic(auto, unfolding(crate::specs::Fields::host_position))]
pub(crate) fn host_at(hosts: &[HostLine], name: u16) -> Result<u16, LineFault>
    requires { length hosts.now ≤ MOST_HOSTS }
    ensures gives { GivesField (λ x. x) result (host_position hosts.now name) }
    ensures bound { IfOk result (λ i. i < length hosts.now) }
    ensures named { IfOk result (λ i. slice_index (host_names hosts.now) i ≡ name) }
{
    match find_host(hosts, name) {
        None => Err(LineFault::Bad(Why::UnknownName)),
        Some(i) => Ok(i as u16),
    }
}
