//! What performs a program's operations.

use crate::action::Class;
use crate::meaning::{Making, Seen, Tried};
use crate::value::{ObjectState, Parts};
use orca_base::{KindNo, NoMemory, OpNo};
use std::alloc::Global;

/// What performs a program's operations. Its member `performs` is what they mean; contracts above speak of that alone.
///
/// The numbers of object types and operations are the program's. Three predicates say what fits, over the types of the
/// objects that exist; more objects leave fitting what fits, and what fits is sound.
pub trait Performer {
    ghost use Rattle.std.specs.Prelude.{◌≡◌, IfOk};
    ghost use Rattle.orca_base.specs.declared.ids.KindNo.{KindNo};
    ghost use Rattle.orca_base.specs.declared.ids.OpNo.{OpNo};
    ghost use Rattle.orca_base.specs.declared.ids.TextNo.{TextNo};
    ghost use Rattle.value_core.specs.Datum as datum;
    ghost use Rattle.value_core.specs.Datum.{Data};
    ghost use Rattle.value_core.specs.declared.action.Class.TheVariants.{Reads};
    ghost use Rattle.value_core.specs.declared.action.Reply.{Reply};
    ghost use Rattle.value_core.specs.Meaning.{Performs};
    ghost use Rattle.value_core.specs.Seen.{seen_of};
    ghost use Rattle.value_core.specs.Fits.{AreNumbered, Kinds, ExtendsKinds, IfMade, KeepsState, RepliesWell};
    ghost use Rattle.value_core.specs.History.{output_kind};
    ghost use Rattle.value_core.specs.Sound.{AreSound, AreSoundArguments, IsSoundReply};

    /// What the program's operations mean.
    ghost performs: { Self → Performs };

    /// A state fits its object type.
    ghost fits_state: { Self → Kinds → KindNo → Data → Type 0 };

    /// Arguments fit an operation.
    ghost fits_args: { Self → Kinds → KindNo → OpNo → Data → Type 0 };

    /// Arguments fit a process text.
    ghost fits_text: { Self → Kinds → TextNo → Data → Type 0 };

    /// A reply fits an operation: no value where it has no result, a value of the result's type, or a fault.
    ghost fits_reply: { Self → KindNo → OpNo → Reply → Type 0 };

    /// Whether an operation may change its object.
    fn class(&self, kind: KindNo, op: OpNo) -> Class
        ensures { result ≡ (performs self.now).class_of kind op };

    /// What the making of an object gives.
    fn make(&self, alloc: Global, kind: KindNo) -> Result<Making, NoMemory>
        ensures { IfOk result (λ making. making ≡ (performs self.now).made kind) };

    /// What a try of an operation gives. Blocked comes exactly where each of its guards is false.
    fn try_op(
        &self,
        alloc: Global,
        kind: KindNo,
        op: OpNo,
        state: &ObjectState,
        args: &Parts,
    ) -> Result<Tried, NoMemory>
        requires { (kinds : Kinds) × fits_state self.now kinds kind state.now × fits_args self.now kinds kind op args.now }
        ensures { IfOk result (λ tried. tried ≡ (performs self.now).tries kind op state.now args.now) };

    /// What a try of an operation answers, for those whom the state that it leaves doesn't concern.
    fn try_read(
        &self,
        alloc: Global,
        kind: KindNo,
        op: OpNo,
        state: &ObjectState,
        args: &Parts,
    ) -> Result<Seen, NoMemory>
        requires { (kinds : Kinds) × fits_state self.now kinds kind state.now × fits_args self.now kinds kind op args.now }
        ensures { IfOk result (λ seen. seen ≡ seen_of ((performs self.now).tries kind op state.now args.now)) }
    {
        Ok(Seen::of(self.try_op(alloc, kind, op, state, args)?))
    }

    /// The output object has no fields, and so its state fits.
    ghost output_fits: { (m : Self) (kinds : Kinds) → fits_state m kinds output_kind datum.none };

    /// A made state fits.
    ghost made_fits: { (m : Self) (kinds : Kinds) (kind : KindNo) → IfMade ((performs m).made kind) (fits_state m kinds kind) };

    /// What a try leaves fits again.
    ghost keeps_fit: { (m : Self) (kinds : Kinds) (kind : KindNo) (op : OpNo) (state args : Data) → fits_state m kinds kind state →
        fits_args m kinds kind op args → KeepsState ((performs m).tries kind op state args) (fits_state m kinds kind) };

    /// What a try replies fits.
    ghost replies_fit: { (m : Self) (kinds : Kinds) (kind : KindNo) (op : OpNo) (state args : Data) → fits_state m kinds kind state →
        fits_args m kinds kind op args → RepliesWell ((performs m).tries kind op state args) (fits_reply m kind op) };

    /// A read leaves the state as it is.
    ghost reads_keep: { (m : Self) (kinds : Kinds) (kind : KindNo) (op : OpNo) (state args : Data) → (performs m).class_of kind op ≡ Reads →
        fits_state m kinds kind state → fits_args m kinds kind op args →
        KeepsState ((performs m).tries kind op state args) (λ after. after ≡ state) };

    /// What fits stays fitting as more objects come to be.
    ghost state_stays_fit: { (m : Self) (kinds more : Kinds) (kind : KindNo) (state : Data) → ExtendsKinds kinds more →
        fits_state m kinds kind state → fits_state m more kind state };

    ghost args_stay_fit: { (m : Self) (kinds more : Kinds) (kind : KindNo) (op : OpNo) (args : Data) → ExtendsKinds kinds more →
        fits_args m kinds kind op args → fits_args m more kind op args };

    ghost text_stays_fit: { (m : Self) (kinds more : Kinds) (text : TextNo) (args : Data) → ExtendsKinds kinds more →
        fits_text m kinds text args → fits_text m more text args };

    /// What fits is sound: a program has no other values, and bytes spell these.
    ghost state_sound: { (m : Self) (kinds : Kinds) (kind : KindNo) (state : Data) → fits_state m kinds kind state → AreSound state };

    ghost args_sound: { (m : Self) (kinds : Kinds) (kind : KindNo) (op : OpNo) (args : Data) → fits_args m kinds kind op args →
        AreSoundArguments args };

    /// Objects that a process is handed are sound where their ids' numbers fit.
    ghost text_sound: { (m : Self) (kinds : Kinds) (text : TextNo) (args : Data) → AreNumbered kinds → fits_text m kinds text args →
        AreSoundArguments args };

    ghost reply_sound: { (m : Self) (kind : KindNo) (op : OpNo) (reply : Reply) → fits_reply m kind op reply → IsSoundReply reply };
}
