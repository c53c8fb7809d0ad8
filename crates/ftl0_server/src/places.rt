//! The places of a server.

ghost use Rattle.std.specs.Prelude.{◌≡◌, ◌<◌, ℕ, List, map, false, true};
ghost use Rattle.std.specs.List.{position};
ghost use Rattle.px_base.specs.CallSign.{CallSign};
ghost use Rattle.ax25_link.specs.Window.{Window};
ghost use Rattle.ftl0_server.specs.AtPlace.{AllFit, GivesUp, IsPlace, MayAllEnd};
ghost use Rattle.ftl0_server.specs.Calls.{SamePlaces};
ghost use Rattle.ftl0_server.specs.Kept.{IsSettled, IsWorking};
ghost use Rattle.ftl0_server.specs.Places.{PlacesGive};
ghost use Rattle.ftl0_server.specs.ServerState.{AllPlaces, SendsAs, any_pending, has_caller, is_empty_place};
ghost use Rattle.ftl0_server.specs.ServerState.{places_most, sessions_in};
ghost use Rattle.ftl0_server.specs.Slots.{Slot, places_next, slot_ticking};

use crate::PLACES;
use crate::place::Place;
use arrayvec::ArrayVec;
use file_store::FileStore;
use px_base::Call;

/// The place of this caller's connection, if it has one.
pub(crate) fn place_of(places: &[Place], caller: Call) -> Option<usize>
    ensures { result ≡ position (has_caller caller) places.now }
{
    places.iter().position(|place| place.has_caller(caller))
}

/// The lowest empty place, if there is one.
pub(crate) fn empty_place(places: &[Place]) -> Option<usize>
    ensures { result ≡ position is_empty_place places.now }
{
    places.iter().position(|place| place.is_empty())
}

/// Whether a frame is to be given out.
pub(crate) fn any_is_pending(places: &[Place]) -> bool
    ensures { result ≡ any_pending places.now }
{
    places.iter().any(|place| place.pending())
}

/// How many sessions are up.
pub(crate) fn count_sessions(places: &[Place]) -> usize
    ensures { result ≡ sessions_in places.now }
{
    places.iter().filter(|place| !place.is_empty()).count()
}

/// Replaces `out` by the octets of the next pending frame of the first place that has one. It is false, and changes
/// nothing, exactly when nothing is pending.
pub(crate) fn next_of(places: &mut [Place], out: &mut ArrayVec<u8, 400>) -> bool
    ensures pending { result ≡ any_pending places.old }
    ensures none { result ≡ false → (places.new ≡ places.old) × (out.new.items ≡ out.old.items) }
    ensures fewer { result ≡ true → places_most places.new < places_most places.old }
    ensures gives { (w : Window) (slots : List Slot) → AllPlaces (SendsAs w) places.old slots →
        PlacesGive (places_next w slots) w places.new out.new.items result }
    ensures same { SamePlaces places.old places.new }
{
    for i in 0..places.len() {
        let place = &mut places[i];
        if place.next_out(out) {
            return true;
        }
    }
    false
}

/// Counts a tick at each place.
pub(crate) fn tick_all(places: &mut [Place], store: &mut FileStore)
    requires silent { any_pending places.old ≡ false }
    requires working { IsWorking store.old places.old }
    ensures ticks { (w : Window) (slots : List Slot) → AllPlaces (IsPlace w store.old) places.old slots →
        AllPlaces (IsPlace w store.new) places.new (map slot_ticking slots) }
    ensures settled { (me : CallSign) (k : ℕ) → IsSettled me k store.old places.old →
        IsSettled me k store.new places.new }
    ensures store { GivesUp store.old store.new }
{
    for i in 0..places.len() {
        let place = &mut places[i];
        place.tick(store);
    }
}

/// A law, which does nothing: whatever ends the places' links stand for are ones that frames and ticks can bring about.
pub(crate) fn all_fit_law(places: &[Place])
    ensures { AllFit places.now }
{
    for place in places {
        place.fits_law();
    }
}

/// Ends the sessions of all places, and parks their uploads.
pub(crate) fn end_all(places: [Place; PLACES], store: &mut FileStore)
    requires { MayAllEnd store.old places }
{
    let [first, second, third, fourth, fifth, sixth, seventh, eighth] = places;
    first.end(store);
    second.end(store);
    third.end(store);
    fourth.end(store);
    fifth.end(store);
    sixth.end(store);
    seventh.end(store);
    eighth.end(store);
}
