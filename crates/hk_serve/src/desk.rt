//! The services of a connection.
ghost use Rattle.std.specs.Prelude.{[], ℕ, List};
ghost use Rattle.kms_calls.specs.declared.calls.KmsReply.{KmsReply};
ghost use Rattle.name_calls.specs.declared.calls.NameReply.{NameReply};
ghost use Rattle.hk_serve.specs.Transactions.{OfKeys, OfLook, OfNames, Transaction};

use hk_base::Text;
use kms_calls::{KmsCall, KmsReply};
use name_calls::NameReply;
use name_rest::NameOrder;
use service_health::{CallCounts, Page};

/// Answers the calls and the orders of a connection.
pub trait Desk {
    /// What holds of the desk before each call or order.
    ghost ready: { Self → Type 0 };

    /// The transactions of a user that may happen, and its states after them.
    ghost answers: { Self → List ℕ → Transaction → Self → Type 0 };

    /// Answers a call of the key management service by a user. A refusal is also a reply.
    fn kms(&mut self, user: Text, call: KmsCall) -> KmsReply
        requires { ready self.old }
        ensures answers { answers self.old user (OfKeys call result) self.new }
        ensures ready { ready self.new };

    /// Answers an order of the namesystem by a user. A refusal is also a reply.
    fn name(&mut self, user: Text, order: NameOrder) -> NameReply
        requires { ready self.old }
        ensures answers { answers self.old user (OfNames order result) self.new }
        ensures ready { ready self.new };

    /// Looks at both services for a page, and returns what it counted. Neither service is called.
    fn look(&mut self, page: Page) -> CallCounts
        requires { ready self.old }
        ensures answers { answers self.old [] (OfLook page result) self.new }
        ensures ready { ready self.new };
}
