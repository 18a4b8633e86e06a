ghost use Rattle.std.specs.Prelude.{◌≡◌, ◌++◌, IfOk, OnOk};
ghost use Rattle.event_texts.specs.Texts.{event_text, events_text};
ghost use Rattle.strm_num.specs.SignedTexts.{signed_text};

use list_denotation::Event;
use std::alloc::Global;
use strm_num::{NoMemory, Word, write_signed};
use text_pieces::put;

/// Puts the signed decimal of a word at the end.
fn put_signed(out: &mut Vec<u8>, w: Word) -> Result<(), NoMemory>
    ensures { OnOk result (out.new.items ≡ out.old.items ++ signed_text w) }
{
    let mut digits = [0; 20];
    let len = write_signed(w, &mut digits);
    put(out, &digits[..len])
}

/// Puts a word behind an event.
fn put_word(out: &mut Vec<u8>, before: Event, w: Word) -> Result<(), NoMemory>
    ensures { OnOk result (out.new.items ≡ out.old.items ++ event_text before (Event.Emit w)) }
{
    if matches!(before, Event::Emit(_)) {
        put(out, b" ")?;
    }
    put_signed(out, w)
}

/// Puts an event behind another.
fn put_event(out: &mut Vec<u8>, before: Event, event: Event) -> Result<(), NoMemory>
    ensures { OnOk result (out.new.items ≡ out.old.items ++ event_text before event) }
{
    match event {
        Event::Emit(w) => put_word(out, before, w),
        Event::EndRow => put(out, b"\n"),
    }
}

/// The text of events. The one error is `NoMemory`, where memory is refused.
pub fn print_events(alloc: Global, events: &[Event]) -> Result<Vec<u8>, NoMemory>
    ensures { IfOk result (λ text. text.items ≡ events_text events.now) }
{
    let mut text = Vec::new(alloc);
    let mut before = Event::EndRow;
    for event in events {
        put_event(&mut text, before, *event)?;
        before = *event;
    }
    Ok(text)
}
