//! The declarations, added to a text.
ghost use Rattle.std.specs.Prelude.{◌≡◌, ◌<◌, ◌++◌, ◌∷◌, [], All, length, slice_index, nat_lt, OnOk, codes, true};
ghost use Rattle.std.specs.List.{flat_map, list_all};
ghost use Rattle.std.specs.Fmt.{decimal};
ghost use Rattle.lg_model.specs.Keeping.{IsFlow, host_names};
ghost use Rattle.text_out.specs.Growing.{Prints};
ghost use Rattle.text_out.specs.Words.{spaced, joined};
ghost use Rattle.scenario_lines.specs.Spelling.{line_text, host_words, switch_words, key_parts, path_words, flow_words, link_words};
ghost use Rattle.scenario_parts.specs.Printed.{lines_text, link_text};

use crate::put::{put_bytes, put_key, put_letters, put_next, put_path};
use lg_model::{Flow, HostLine};
use text_out::TextOut;

fn put_host<T: TextOut>(out: &mut T, host: &HostLine) -> Result<(), T::Fault>
    ensures { Prints result (T.kind out.old) (T.kind out.new) (line_text (host_words host.now)) }
{
    put_bytes(out, b"host")?;
    put_next(out, host.name as u64)?;
    put_bytes(out, b"\n")
}

pub(crate) fn put_hosts<T: TextOut>(out: &mut T, hosts: &[HostLine]) -> Result<(), T::Fault>
    ensures { Prints result (T.kind out.old) (T.kind out.new) (lines_text host_words hosts.now) }
{
    for host in hosts {
        put_host(out, host)?;
    }
    Ok(())
}

fn put_switch<T: TextOut>(out: &mut T, name: u16) -> Result<(), T::Fault>
    ensures { Prints result (T.kind out.old) (T.kind out.new) (line_text (switch_words name)) }
{
    put_bytes(out, b"switch")?;
    put_next(out, name as u64)?;
    put_bytes(out, b"\n")
}

pub(crate) fn put_switches<T: TextOut>(out: &mut T, switches: &[u16]) -> Result<(), T::Fault>
    ensures { Prints result (T.kind out.old) (T.kind out.new) (lines_text switch_words switches.now) }
{
    for name in switches {
        put_switch(out, *name)?;
    }
    Ok(())
}

fn host_name(hosts: &[HostLine], at: u16) -> u16
    requires { at < length hosts.now }
    ensures { result ≡ slice_index (host_names hosts.now) at }
{
    hosts[at as usize].name
}

fn put_flow_front<T: TextOut>(out: &mut T, flow: &Flow) -> Result<(), T::Fault>
    ensures { Prints result (T.kind out.old) (T.kind out.new) (joined (codes "flow" ∷ decimal flow.now.name ∷ key_parts flow.now.key [])) }
{
    put_bytes(out, b"flow")?;
    put_next(out, flow.name as u64)?;
    put_key(out, &flow.key)
}

fn put_flow_back<T: TextOut>(
    out: &mut T,
    host: u16,
    switches: &[u16],
    path: &[u16],
) -> Result<(), T::Fault>
    requires { list_all (λ at. nat_lt at (length switches.now)) path.now ≡ true }
    ensures { Prints result (T.kind out.old) (T.kind out.new)
        (spaced (codes "host" ∷ decimal host ∷ codes "path" ∷ path_words switches.now path.now)) }
{
    put_bytes(out, b" host")?;
    put_next(out, host as u64)?;
    put_bytes(out, b" path")?;
    put_path(out, switches, path)
}

fn put_flow<T: TextOut>(
    out: &mut T,
    hosts: &[HostLine],
    switches: &[u16],
    flow: &Flow,
) -> Result<(), T::Fault>
    requires { IsFlow (length hosts.now) (length switches.now) flow.now }
    ensures { Prints result (T.kind out.old) (T.kind out.new) (line_text (flow_words hosts.now switches.now flow.now)) }
{
    let host = host_name(hosts, flow.host_at);
    put_flow_front(out, flow)?;
    put_flow_back(out, host, switches, flow.path.items())?;
    put_bytes(out, b"\n")?;
    Ok(())
}

pub(crate) fn put_flows<T: TextOut>(
    out: &mut T,
    hosts: &[HostLine],
    switches: &[u16],
    flows: &[Flow],
) -> Result<(), T::Fault>
    requires { All (IsFlow (length hosts.now) (length switches.now)) flows.now }
    ensures { Prints result (T.kind out.old) (T.kind out.new) (lines_text (flow_words hosts.now switches.now) flows.now) }
{
    for flow in flows {
        put_flow(out, hosts, switches, flow)?;
    }
    Ok(())
}

fn put_link<T: TextOut>(out: &mut T, host: &HostLine) -> Result<(), T::Fault>
    ensures { Prints result (T.kind out.old) (T.kind out.new) (line_text (link_words host.now)) }
{
    put_bytes(out, b"link")?;
    put_next(out, host.name as u64)?;
    put_bytes(out, b" ")?;
    put_letters(out, host.letters.items())?;
    put_bytes(out, b"\n")
}

fn put_link_of<T: TextOut>(out: &mut T, host: &HostLine) -> Result<(), T::Fault>
    ensures { Prints result (T.kind out.old) (T.kind out.new) (link_text host.now) }
{
    if host.letters.items().len() == 0 {
        Ok(())
    } else {
        put_link(out, host)
    }
}

pub(crate) fn put_links<T: TextOut>(out: &mut T, hosts: &[HostLine]) -> Result<(), T::Fault>
    ensures { Prints result (T.kind out.old) (T.kind out.new) (flat_map link_text hosts.now) }
{
    for host in hosts {
        put_link_of(out, host)?;
    }
    Ok(())
}
