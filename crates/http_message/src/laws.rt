//! Laws over the definitions, as contracts of functions that do nothing.
ghost use Rattle.std.specs.Prelude.{◌≡◌, ℕ, List, ◌++◌};
ghost use Rattle.counted_io.specs.ReaderWriter.{Reader};
ghost use Rattle.http_message.specs.Head.{Head, HasHead};
ghost use Rattle.http_message.specs.Reading.{EndsInBody, ReadsNoHead, ReadsBody, ReadsHead, RequestParts};
ghost use Rattle.http_message.specs.Whole.{HadHead, HadNoHead, HadRequest, HadShortRequest, left_of};
ghost use Rattle.http_message.specs.declared.head.TheConstants.{MAX_HEAD_LENGTH, MAX_HEADERS};
ghost use Rattle.http_message.specs.declared.length.TheConstants.{MAX_BODY_LENGTH};
ghost use Rattle.http_message.specs.declared.reply.TheConstants.{MAX_ALLOW_LENGTH, MAX_LEAD_LENGTH};

/// The limits on a request: the bytes of its head, the number of its headers, the bytes of its body. And those on a reply: the bytes of its
/// `Allow` header's methods, and the bytes of its body that it has itself.
pub fn limits()
    ensures head { MAX_HEAD_LENGTH ≡ 8192 }
    ensures headers { MAX_HEADERS ≡ 64 }
    ensures body { MAX_BODY_LENGTH ≡ 1048576 }
    ensures allow { MAX_ALLOW_LENGTH ≡ 32 }
    ensures lead { MAX_LEAD_LENGTH ≡ 65 }
{}

/// An input begins with at most one head, followed by one rest, and bytes that arrive later only lengthen that rest.
pub fn one_head()
    ensures unique { (input : List ℕ) (head other : Head) (rest other_rest : List ℕ) → HasHead input head rest → HasHead input other other_rest
        → (head ≡ other) × (rest ≡ other_rest) }
    ensures lasting { (input more : List ℕ) (head : Head) (rest : List ℕ) → HasHead input head rest → HasHead (input ++ more) head (rest ++ more) }
{}

/// The bytes read, in any number of reads, determine what the complete input has, if that is known.
pub fn whole_inputs()
    ensures head { (request : RequestParts) (old new : Reader) → ReadsHead request old new → HadHead request.head (request.after_head ++ left_of new) old }
    ensures no_head { (old new : Reader) → ReadsNoHead old new → HadNoHead old }
    ensures body { (request : RequestParts) (count : ℕ) (bytes : List ℕ) (old now new : Reader) → ReadsHead request old now
        → ReadsBody request.after_head count bytes now new → HadRequest request.head count bytes old }
    ensures short_body { (request : RequestParts) (count : ℕ) (old now new : Reader) → ReadsHead request old now
        → EndsInBody request.after_head count now new → HadShortRequest request.head count old }
{}
