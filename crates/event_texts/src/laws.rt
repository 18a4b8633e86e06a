//! Laws of the definitions. These functions do nothing: their contracts are the laws, which specs/Promises tells.

ghost use Rattle.event_texts.specs.Promises.{EventTextsDiffer, EventTextsBeginWithThoseOfPrefixes};

pub fn event_texts_differ()
    ensures { EventTextsDiffer }
{}

pub fn event_texts_begin_with_those_of_prefixes()
    ensures { EventTextsBeginWithThoseOfPrefixes }
{}
