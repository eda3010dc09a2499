//! The header of a connection that a proxy passes on.

ghost use Rattle.std.specs.Prelude.{◌≡◌, IfSome, IsNone, IsSome, true, false};
ghost use Rattle.ftp_base.specs.Calls.{AllWell};
ghost use Rattle.ftp_base.specs.Edge.{Takes, behind_moment, next_number};
ghost use Rattle.ftp_base.specs.Kept.{OnlyReads};
ghost use Rattle.ftp_base.specs.Memory.{LinkMet};
ghost use Rattle.ftp_base.specs.Outside.{HasRisen};
ghost use Rattle.ftp_events.specs.declared.event.EventKind.TheVariants.{Proxied};
ghost use Rattle.ftp_workers.specs.Header.{IsHeaderOf, header_in, header_told, is_read_fault};

use ftp_base::{Edge, Link, SocketAddr};
use ftp_events::{Answer, EventKind, HubEvent};
use ftp_proxy::{read_proxy_any, to_answer};
use std::alloc::Global;

/// The event of a connection behind a proxy, and the header that it is to be decided by; none for want of memory.
///
/// The header is read as `read_proxy_any` reads it, of either version, and nothing behind it.
///
/// # Proved
///
/// - A connection behind a proxy comes with the event of its number, its address and its trace, at the one moment that
///   was taken; with none only if memory ran out, and then no moment is taken (`event`, `moment`, `moment_taken`,
///   `header`, `unchanged`).
/// - The answer to it is what the header of either version that was read of its link counts as, or why there is none,
///   with all that `read_proxy_any` says of that (`IsHeaderOf` in `ftp_workers/specs/Header.antt`) (`answer`, `header`,
///   `last_fault`, `met`, `unlisted`, `as_listed`, `fault_rose`, `only_reads`).
pub fn answer_proxied<L: Link, E: Edge>(
    alloc: Global,
    number: u64,
    raw: SocketAddr,
    trace: u64,
    link: &mut L,
    edge: &mut E,
) -> Option<(HubEvent, Answer)>
    ensures event { IfSome result (λ made. made.0.kind ≡ Proxied number raw trace) }
    ensures moment { IfSome result (λ made. IfSome (E.view edge.old).feed (λ f. made.0.at ≡ next_number f.moments)) }
    ensures moment_taken { IsSome result → Takes behind_moment (E.view edge.old) (E.view edge.new) }
    ensures answer { IfSome result (λ made. IsSome (header_in made.1)) }

    // Of what was read, nothing is told where there was no memory for it.
    ensures header { IfSome (L.left link.old) (λ left. IsHeaderOf left (header_told result) (L.left link.new)) }
    ensures unchanged { IsNone result → E.view edge.new ≡ E.view edge.old }

    // What the link met, also where there is no event.
    ensures last_fault { is_read_fault (header_told result) ≡ false → (L.sending link.new).last_fault ≡ (L.sending link.old).last_fault }
    ensures met { is_read_fault (header_told result) ≡ true → IsSome (L.sending link.new).last_fault }
    ensures unlisted { is_read_fault (header_told result) ≡ false → AllWell (λ call. call.0) (L.calls link.old) (L.calls link.new) }
    ensures as_listed { is_read_fault (header_told result) ≡ true → LinkMet (L.calls link.old) (L.calls link.new) (L.sending link.new).last_fault }
    ensures fault_rose { is_read_fault (header_told result) ≡ true → HasRisen (L.faults link.old) (L.faults link.new) }
    ensures only_reads { OnlyReads L.sending L.faults L.fault_limit link.old link.new }
{
    let header = to_answer(read_proxy_any(alloc, link))?;
    let event = HubEvent {
        at: edge.now(),
        kind: EventKind::Proxied { number, raw, trace },
    };
    Some((event, Answer::Header(header)))
}
