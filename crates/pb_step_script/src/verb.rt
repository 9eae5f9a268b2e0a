//! The verbs of script lines.

ghost use Rattle.std.specs.Prelude.{◌≡◌, IfSome, IfNone};
ghost use Rattle.pb_step_script.specs.Verbs.{verb_word};
ghost use Rattle.pb_step_script.specs.declared.verb.Verb.{Verb};

/// The verb of a script line, which is its first argument.
#[derive(Clone, Copy, Debug, PartialEq, Eq)]
pub enum Verb {
    /// `poll NAME HEX`: a customer port takes in a frame.
    Poll,
    /// `feed NAME`: a customer port hands the frame that it holds to its bridge.
    Feed,
    /// `deliver NAME`: a customer port takes the oldest frame that its bridge sent to it.
    Deliver,
    /// `receive BRIDGE PORT`: a bridge takes the oldest item that came to a port.
    Receive,
    /// `transmit BRIDGE PORT`: a bridge sends the next item of a port.
    Transmit,
    /// `tick BRIDGE`: the clock of a bridge ticks once.
    Tick,
    /// `admin BRIDGE PORT up` or `down`: a port to another bridge is enabled or disabled.
    Admin,
    /// `take LINK ab` or `ba`: a lane of a link takes the oldest item that was sent to it.
    Take,
    /// `put LINK ab` or `ba`: a lane puts the item that it holds before the far bridge.
    Put,
}

/// Returns the verb that an argument spells.
pub(crate) fn verb_of(word: &[u8]) -> Option<Verb>
    ensures some { IfSome result (λ verb. word.now ≡ verb_word verb) }
    ensures none { IfNone result ((verb : Verb) → word.now ≡ verb_word verb → ⊥) }
{
    let verb = match word {
        b"poll" => Verb::Poll,
        b"feed" => Verb::Feed,
        b"deliver" => Verb::Deliver,
        b"receive" => Verb::Receive,
        b"transmit" => Verb::Transmit,
        b"tick" => Verb::Tick,
        b"admin" => Verb::Admin,
        b"take" => Verb::Take,
        b"put" => Verb::Put,
        _ => return None,
    };
    Some(verb)
}
