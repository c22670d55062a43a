//! The lines of faults and of refusals.
ghost use Rattle.std.specs.Prelude.{◌≡◌, ◌≢◌, ◌≤◌, ◌+◌, ◌++◌, ◌||◌, true};
ghost use Rattle.arrayvec.specs.ArrayVec.{array_vec_len};
ghost use Rattle.hg_bind.specs.Bound.{error_of};
ghost use Rattle.hg_machine.specs.Plain.Refused.{refusal_line};
ghost use Rattle.hg_machine.specs.Plain.Replies.{line_text, is_error};
ghost use Rattle.hg_model.specs.Refusal.{Refusal};
ghost use Rattle.hg_engine.specs.Stepping.{line_of};

use hg_base::PageFault;
use hg_bind::BindError;
use hg_reply::{Reply, ReplyLine, Words};

/// Says why a call over pages failed.
pub fn say_fault(reply: &mut Reply, fault: PageFault)
    requires room { array_vec_len reply.old.text ≤ 512 }
    ensures text { reply.new.text.items ≡ reply.old.text.items ++ line_text (line_of fault) }
    ensures errors { reply.new.has_error ≡ (reply.old.has_error || true) }
    ensures short { array_vec_len reply.new.text ≤ array_vec_len reply.old.text + 256 }
{
    match fault {
        PageFault::MainFault => reply.say(&ReplyLine::Error(17, Words::Nothing)),
        PageFault::TempFault => reply.say(&ReplyLine::Error(18, Words::Nothing)),
        PageFault::MainFull => reply.say(&ReplyLine::Error(19, Words::Nothing)),
        PageFault::TempFull => reply.say(&ReplyLine::Error(20, Words::Nothing)),
        PageFault::Damaged { page, check } => {
            reply.say(&ReplyLine::Error(21, Words::Damage(page, check)))
        }
    }
}

/// Says why a statement is refused.
pub fn say_refusal(reply: &mut Reply, error: &BindError)
    requires room { array_vec_len reply.old.text ≤ 512 }
    requires known { (r : Refusal) × (error_of r ≡ error.now) }
    ensures text { (r : Refusal) → error_of r ≡ error.now → reply.new.text.items ≡ reply.old.text.items ++ line_text (refusal_line r) }
    ensures errors { reply.new.has_error ≡ (reply.old.has_error || true) }
{
    match &error.name {
        Some(name) => reply.say(&ReplyLine::Error(error.code, Words::Column(name))),
        None => match error.kind {
            Some(kind) => reply.say(&ReplyLine::Error(error.code, Words::Kind(kind))),
            None => reply.say(&ReplyLine::Error(error.code, Words::Nothing)),
        },
    }
}
