//! Laws of what a delivery changes. The function does nothing: its contract states the laws.
ghost use Rattle.reenc_update.specs.Laws.{ChangedExactly, EachIsCounted, IdsStayOnce, KeysStayTheSame};

/// A file gets an encrypted key if and only if the batch sent it, it is still in the zone with the
/// encrypted key that was sent, and this other one came back for it. Each file of the batch is
/// changed, skipped or failed. If the batch sent no file twice, none is changed twice. Each new
/// encrypted key is of the same key as the one that the file has.
pub fn deliveries_change_what_was_sent()
    ensures exactly { ChangedExactly }
    ensures counted { EachIsCounted }
    ensures once { IdsStayOnce }
    ensures keys { KeysStayTheSame }
{}
