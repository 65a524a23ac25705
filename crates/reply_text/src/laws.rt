//! Laws of the texts.
ghost use Rattle.reply_text.specs.Telling.{NoneBeginsAnother};

/// No answer's text begins another's, so a text that is cut short is never the text of an answer.
pub fn none_begins_another()
    ensures { NoneBeginsAnother }
{}
