//! Laws about the definitions, stated as contracts of functions that do nothing.
ghost use Rattle.std.specs.Prelude.{◌≡◌, ◌%◌, ◌==◌, [], ◌∷◌, ◌++◌, ℕ, List, None, Some};
ghost use Rattle.std.specs.List.{concat};
ghost use Rattle.addresses.specs.Address.{AddressParts};
ghost use Rattle.addresses.specs.Listing.{Listing, ended, ended_by, with_addresses};
ghost use Rattle.addresses.specs.RecordText.{IsFirstText, is_open, quotation_marks, record_texts};
ghost use Rattle.addresses.specs.declared.fault.AddressFault.{AddressFault as AnAddressFault};
ghost use Rattle.addresses.specs.declared.record.TheConstants.{MAX_RECORD_LENGTH};

/// States that a record has at most 65,536 bytes, its line end included.
pub fn record_limit()
    ensures { MAX_RECORD_LENGTH ≡ 65536 }
{}

/// States that a file consists of its record texts, one after the other.
#[tactic(auto, using(crate::proofs::TextLaws::whole_file_lem))]
pub fn record_texts_are_the_file()
    ensures { (file : List ℕ) → concat (record_texts file) ≡ file }
{}

/// States that a quotation is open after an odd number of quotation marks.
#[tactic(auto, using(crate::proofs::TextLaws::open_if_odd_lem))]
pub fn open_if_odd()
    ensures { (bytes : List ℕ) → is_open bytes ≡ (quotation_marks bytes % 2 == 1) }
{}

/// States that a record's text ends with the first line feed preceded by an even number of its quotation marks, or with the file. The other texts are
/// those of the rest.
#[tactic(auto, using(crate::proofs::TextLaws::first_text_lem))]
pub fn record_text_ends_first()
    ensures { (file text : List ℕ) (texts : List (List ℕ)) → record_texts file ≡ text ∷ texts
        → (rest : List ℕ) × IsFirstText file text rest × (texts ≡ record_texts rest) }
{}

/// States that each read adds its address to those before it. The last read shows that these are all the addresses, or all before a fault.
#[tactic(auto, using(crate::proofs::ListingLaws::reads))]
pub fn reads_in_turn()
    ensures further { (rows : List AddressParts) (address : AddressParts) (file old new : Listing) → file ≡ with_addresses rows old
        → old ≡ with_addresses (address ∷ []) new → file ≡ with_addresses (rows ++ address ∷ []) new }
    ensures last { (rows : List AddressParts) (file : Listing) → file ≡ with_addresses rows ended
        → file ≡ record { addresses = rows; fault = None } }
    ensures fault { (rows : List AddressParts) (fault : AnAddressFault) (file : Listing) → file ≡ with_addresses rows (ended_by fault)
        → file ≡ record { addresses = rows; fault = Some fault } }
{}
