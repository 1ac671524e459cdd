//! What the definitions of a door mean.

ghost use Rattle.std.specs.Prelude.{◌≡◌, ◌<◌, ◌++◌, ℕ, true, List, Ok, length, slice_index};
ghost use Rattle.harp_types.specs.declared.call.Call.{Call as Called};
ghost use Rattle.harp_types.specs.declared.reply.Reply.{Reply as Replied};
ghost use Rattle.harp_types.specs.Procedures.{procedure_of};
ghost use Rattle.harp_base.specs.Replies.{ReplyFits};
ghost use Rattle.rpc_door.specs.declared.meaning.RpcIn.TheVariants.{Ask};
ghost use Rattle.rpc_door.specs.Grammar.{IsCall};
ghost use Rattle.rpc_door.specs.Meaning.{meaning_of};
ghost use Rattle.rpc_door.specs.Marks.{IsSentAs, Whole, front};
ghost use Rattle.rpc_door.specs.ReadBack.{ModesFit, result_at};
ghost use Rattle.rpc_door.specs.Results.{is_reply_to, result_to};

/// What stands at the front of bytes is read as a record just where it was sent as one: in
/// fragments behind their marks.
pub fn marked_records()
    ensures sent { (bytes sent rest : List ℕ) → IsSentAs bytes sent
        → front (sent ++ rest) ≡ Whole bytes rest }
    ensures read { (all bytes rest : List ℕ) → ((i : ℕ) → slice_index all i < 256)
        → front all ≡ Whole bytes rest
        → (sent : List ℕ) × IsSentAs bytes sent × (all ≡ sent ++ rest) }
{}

/// A record is read as a call just where it is one.
pub fn sent_calls()
    ensures read { (bytes : List ℕ) (xid : ℕ) (c : Called) → IsCall bytes xid c
        → meaning_of bytes ≡ Ask xid c }
    ensures sent { (bytes : List ℕ) (xid : ℕ) (c : Called) → ((i : ℕ) → slice_index bytes i < 256)
        → meaning_of bytes ≡ Ask xid c → IsCall bytes xid c }
{}

/// What a client reads of the result of a call is the reply to it.
pub fn read_results()
    ensures { (c : Called) (r : Replied) (rest : List ℕ) → is_reply_to c r ≡ true → ReplyFits r
        → ModesFit r → result_at (procedure_of c) (result_to (procedure_of c) r ++ rest) 0
        ≡ Ok (r, length (result_to (procedure_of c) r)) }
{}
