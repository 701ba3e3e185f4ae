//! Events of both services.
ghost use Rattle.hk_events.specs.declared.event.Event.{Event as AnEvent};
ghost use Rattle.hk_events.specs.declared.event.Line.{Line as Answer};
ghost use Rattle.file_orders.specs.Events.{IsNoRestart};

use hk_events::{Event, Line};

/// Lets events happen, and answers them.
pub trait Events {
    /// What holds before each event.
    ghost ready: { Self → Type 0 };

    /// The events that may happen, their answers, and the states after them.
    ghost leads: { Self → AnEvent → Answer → Self → Type 0 };

    /// Lets an event happen that is no restart. A refusal is also an answer.
    fn happen(&mut self, event: Event) -> Line
        requires ready { ready self.old }
        requires goes_on { IsNoRestart event }
        ensures leads { leads self.old event result self.new }
        ensures ready { ready self.new };
}
