//! Laws: a key tells session and id; limits and bytes in numbers.
ghost use Rattle.std.specs.Prelude.{◌≡◌, ℕ, List, [], ◌∷◌, pos, codes};
ghost use Rattle.spread_rules_ids.specs.declared.bytes.TheConstants.{SOH, LINE_FEED, SPACE, NUMBER_SIGN, HYPHEN_MINUS, POINT, DIGIT_ZERO, COLON, EQUALS, VERTICAL_BAR};
ghost use Rattle.spread_rules_ids.specs.declared.limits.TheConstants.{SESSIONS, MAX_MONTHS, MAX_NAME_LENGTH, MAX_TICK, MAX_ID_LENGTH, MAX_NUMBER, FIRST_MSG_SEQ_NUM, MAX_MSG_SEQ_NUM, MIN_BODY_LENGTH, MAX_BODY_LENGTH, MAX_ORDER_QTY, MAX_PRICE, MAX_LEG_PRICE, MAX_JOURNAL_ENTRIES, MAX_RING, MAX_INPUT_BYTES};
ghost use Rattle.spread_rules_ids.specs.IdKeys.{key_of, IsIdBytes};

/// Two keys are one only where session and id are.
pub fn one_key()
    ensures once { (s t : ℕ) (a b : List ℕ) → IsIdBytes a → IsIdBytes b →
        key_of s a ≡ key_of t b → (s ≡ t) × (a ≡ b) }
{}

/// The limits in numbers, as docs/PROFILE.md has them, and the byte that ends a field.
pub fn limits()
    ensures sessions { SESSIONS ≡ 16 }
    ensures max_months { MAX_MONTHS ≡ 24 }
    ensures max_name_length { MAX_NAME_LENGTH ≡ 15 }
    ensures max_tick { MAX_TICK ≡ pos 1000000 }
    ensures max_id_length { MAX_ID_LENGTH ≡ 32 }
    ensures max_number { MAX_NUMBER ≡ 999999999 }
    ensures first_msg_seq_num { FIRST_MSG_SEQ_NUM ≡ 1 }
    ensures max_msg_seq_num { MAX_MSG_SEQ_NUM ≡ 999999999 }
    ensures min_body_length { MIN_BODY_LENGTH ≡ 5 }
    ensures max_body_length { MAX_BODY_LENGTH ≡ 4096 }
    ensures max_order_qty { MAX_ORDER_QTY ≡ 999999 }
    ensures max_price { MAX_PRICE ≡ pos 1000000000 }
    ensures max_leg_price { MAX_LEG_PRICE ≡ pos 2000000000 }
    ensures max_journal_entries { MAX_JOURNAL_ENTRIES ≡ 1000000 }
    ensures max_ring { MAX_RING ≡ 4096 }
    ensures max_input_bytes { MAX_INPUT_BYTES ≡ 16777216 }
    ensures soh { SOH ≡ 1 }
{}

/// The other bytes that texts are made of, as their characters.
pub fn bytes()
    ensures line_feed { LINE_FEED ≡ 10 }
    ensures space { SPACE ∷ [] ≡ codes " " }
    ensures number_sign { NUMBER_SIGN ∷ [] ≡ codes "#" }
    ensures hyphen_minus { HYPHEN_MINUS ∷ [] ≡ codes "-" }
    ensures point { POINT ∷ [] ≡ codes "." }
    ensures digit_zero { DIGIT_ZERO ∷ [] ≡ codes "0" }
    ensures colon { COLON ∷ [] ≡ codes ":" }
    ensures equals { EQUALS ∷ [] ≡ codes "=" }
    ensures vertical_bar { VERTICAL_BAR ∷ [] ≡ codes "|" }
{}
