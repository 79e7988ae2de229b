//! Whether names come twice.
ghost use Rattle.std.specs.Prelude.{◌≡◌, ◌==◌, Decides};
ghost use Rattle.std.specs.List.{list_any};
ghost use Rattle.lg_model.specs.Keeping.{names_of, host_names, AreApart};

use lg_model::{Flow, HostLine};

// Whether no number comes twice.
pub(crate) fn are_apart(names: &[u16]) -> bool
    ensures { Decides result (AreApart names.now) }
{
    for i in 0..names.len() {
        if names[..i].contains(&names[i]) {
            return false;
        }
    }
    true
}

fn has_host(hosts: &[HostLine], name: u16) -> bool
    ensures { result ≡ list_any (λ h. h.name == name) hosts.now }
{
    hosts.iter().any(|h| h.name == name)
}

// Whether each host has a name of its own.
pub(crate) fn are_hosts_apart(hosts: &[HostLine]) -> bool
    ensures { Decides result (AreApart (host_names hosts.now)) }
{
    for i in 0..hosts.len() {
        if has_host(&hosts[..i], hosts[i].name) {
            return false;
        }
    }
    true
}

fn has_flow(flows: &[Flow], name: u16) -> bool
    ensures { result ≡ list_any (λ f. f.name == name) flows.now }
{
    flows.iter().any(|f| f.name == name)
}

// Whether each flow has a name of its own.
pub(crate) fn are_flows_apart(flows: &[Flow]) -> bool
    ensures { Decides result (AreApart (names_of flows.now)) }
{
    for i in 0..flows.len() {
        if has_flow(&flows[..i], flows[i].name) {
            return false;
        }
    }
    true
}
