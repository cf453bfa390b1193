//! Laws of the definitions that the contracts cite. Each is a function with an empty body.
ghost use Rattle.std.specs.Prelude.{◌≡◌, ◌≤◌, ◌↔◌, ℕ, List, [], ◌++◌, length, take, Ok, Err, Some, None};
ghost use Rattle.std.specs.List.{flat_map, concat};
ghost use Rattle.xs_resp.specs.declared.reply.Reply.{Reply};
ghost use Rattle.xs_resp.specs.declared.read_fault.ProtocolFault.{ProtocolFault};
ghost use Rattle.xs_resp.specs.Items.{Items};
ghost use Rattle.xs_resp.specs.ReplyItems.{items_of};
ghost use Rattle.xs_resp.specs.Whole.{AreItems};
ghost use Rattle.xs_resp.specs.WholeReplies.{AreWhole};
ghost use Rattle.xs_resp.specs.ReplyText.{text};
ghost use Rattle.xs_resp.specs.Line.{line};
ghost use Rattle.xs_resp.specs.Outcome.{Keeps};
ghost use Rattle.xs_resp.specs.Reading.{Found, request};
ghost use Rattle.xs_resp.specs.Grammar.{Spells, FaultIn, IsOpen};
ghost use Rattle.xs_resp.specs.HeldBytes.{Held};
ghost use Rattle.xs_resp.specs.Pieces.{Reads, ReadsPieces};

/// The text of an array is its header, and then the texts of its items.
pub fn array_text()
    ensures { (replies : List Reply) →
        text (Reply.Array (items_of replies)) ≡ line 42 (length replies) ++ flat_map text replies }
{}

/// The items of complete replies are complete, and complete items are those of some complete replies.
pub fn whole_items()
    ensures made { (replies : List Reply) → AreWhole replies →
        AreItems (items_of replies).count (items_of replies).tokens }
    ensures found { (items : Items) → AreItems items.count items.tokens →
        (replies : List Reply) × AreWhole replies × (items ≡ items_of replies) }
{}

/// A request is read exactly if the grammar has it.
pub fn request_is_spelled()
    ensures { (bytes : List ℕ) (found : Found) →
        (request bytes ≡ Ok (Some found))
        ↔ ((found.end ≤ length bytes) × Spells (take found.end bytes) found.words) }
{}

/// A fault is returned exactly if the bytes have it.
pub fn fault_stands()
    ensures { (bytes : List ℕ) (wrong : ProtocolFault) →
        (request bytes ≡ Err wrong) ↔ FaultIn bytes wrong }
{}

/// Nothing is returned exactly if no front of the bytes is a request and they have no fault.
pub fn neither_stands()
    ensures { (bytes : List ℕ) →
        (request bytes ≡ Ok None) ↔ IsOpen bytes }
{}

/// No spelling is a proper prefix of another.
pub fn spelling_begins_no_other()
    ensures { (bytes others rest more : List ℕ) (words names : List (List ℕ)) →
        Spells bytes words → Spells others names → bytes ++ rest ≡ others ++ more →
        (bytes ≡ others) × (words ≡ names) }
{}

/// What is decided on some bytes, a request or a fault, stays decided on every continuation.
pub fn decision_stays()
    ensures { (bytes more : List ℕ) → Keeps (request bytes) (request (bytes ++ more)) }
{}

/// However bytes are cut into pieces, the requests that are read from the pieces, and what is held after them, are
/// those of the joined bytes.
pub fn pieces_are_joined()
    ensures { (pieces : List (List ℕ)) (requests : List (List (List ℕ))) (held : Held) →
        ReadsPieces (Ok []) pieces requests held → Reads (concat pieces) requests held }
{}

/// The reading of some bytes is unique.
pub fn reading_is_one()
    ensures { (bytes : List ℕ) (requests others : List (List (List ℕ))) (held other : Held) →
        Reads bytes requests held → Reads bytes others other →
        (requests ≡ others) × (held ≡ other) }
{}

/// All bytes are read: as some requests, and what is held after them.
pub fn bytes_are_read()
    ensures { (bytes : List ℕ) →
        (requests : List (List (List ℕ))) × ((held : Held) × Reads bytes requests held) }
{}
