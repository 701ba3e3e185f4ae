//! Laws of bodies. The functions do nothing: their contracts are the laws.
ghost use Rattle.kms_json.specs.Laws.{BytesAreSpelled, NamedByText, NamedOnlySo, OneCall, OneEek, SpelledGives, SpelledOnce};

/// A body determines one call or one fault, apart from `NoMemory`. So a body that is a call is refused
/// only if there is no memory.
pub fn bodies_have_one_answer()
    ensures call { OneCall }
    ensures eek { OneEek }
{}

/// A text decodes exactly if it is base64 (RFC 4648): all in the standard or all in the URL-safe
/// alphabet, with its padding or without, and without leftover bits. It is then the base64 of the
/// decoded bytes, and of no other bytes.
pub fn base64_texts_give_their_bytes()
    ensures spelled { BytesAreSpelled }
    ensures gives { SpelledGives }
    ensures once { SpelledOnce }
{}

/// A text names a version exactly if it is that version's only spelling.
pub fn versions_are_named_by_their_texts()
    ensures text { NamedByText }
    ensures only { NamedOnlySo }
{}
