//! Laws about data encryption keys that are generated, decrypted and re-encrypted, and about
//! births. The functions do nothing: their contracts are the laws.
ghost use Rattle.kms_core.specs.Laws.{BatchOpens, DecryptOpens, DeletedIsGone, DepositOpens, DrawsApart, DrawsReadTheirOwn, GeneratedDecrypts, GeneratedOpens, GoneStays, GoneStaysAtStart, LostIsUsedUp, PermittedDecryptOpens, ReadyFirst, ReadyOpens, ReencryptedOpens, TicketOpens, UsedUpAtStart, UsedUpStays};

/// A decrypt that nothing refuses returns the key that the sent bytes open to under their version.
/// The same holds for a user who may decrypt.
pub fn decrypt_opens()
    ensures opens { DecryptOpens }
    ensures permitted { PermittedDecryptOpens }
{}

/// A generate returns the oldest ready keys first. Each ready key is of the current version and
/// opens under its material. Each key after them opens to the data encryption key drawn for it, and
/// decrypt returns that key.
pub fn generated_keys_open()
    ensures ready { ReadyFirst }
    ensures ready_opens { ReadyOpens }
    ensures opens { GeneratedOpens }
    ensures decrypts { GeneratedDecrypts }
{}

/// The material of a ticket is that of its version. A sealed key that a deposit keeps is the newest
/// ready key of its queue, and opens to the data encryption key that was sealed, if it was sealed
/// with the current material.
pub fn deposited_keys_open()
    ensures ticket { TicketOpens }
    ensures deposit { DepositOpens }
{}

/// The key that a reencrypt returns, and each key that a batch returns, is on the current version
/// and opens to the same data encryption key as the key that was sent.
pub fn reencrypted_keys_open()
    ensures opens { ReencryptedOpens }
    ensures batch { BatchOpens }
{}

/// The draws of a generate take different words of the stream, and each uses only its own words.
pub fn draws_use_different_words()
    ensures own { DrawsReadTheirOwn }
    ensures apart { DrawsApart }
{}

/// No key has the birth of a deleted key. No call and no start ever gives such a birth to a key
/// again, nor any other birth below the next one, except that the pending command gets its own. So
/// a birth that was taken for a create whose record could not be written is used up.
pub fn births_never_come_again()
    ensures stays { GoneStays }
    ensures at_start { GoneStaysAtStart }
    ensures deleted { DeletedIsGone }
    ensures below_next { UsedUpStays }
    ensures lost { LostIsUsedUp }
    ensures lost_at_start { UsedUpAtStart }
{}
