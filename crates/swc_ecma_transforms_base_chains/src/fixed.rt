//! What the fixer makes of a program in which no types stand, once they were asked for.
ghost use Rattle.std.specs.Prelude.{◌≡◌, true, false, OnOk, OnErr, IfErr};
ghost use Rattle.swc_tree_marks.specs.declared.error.PassError.TheVariants as error;
ghost use Rattle.swc_tree_modules.specs.Nodes.{module_node, script_node};
ghost use Rattle.swc_tree_grammar.specs.Targets.{all_bare};
ghost use Rattle.swc_base_fixer_unparen.specs.Moves.{LeadTo, LeadPartlyTo};
ghost use Rattle.swc_base_fixer_program.specs.Answers.{answer_to, moves_for};
ghost use Rattle.swc_base_fixer.specs.Unparened.{IsRefusal};

use std::alloc::Global;
use std::mem;
use swc_base_fixer_program::fix_parens_with;
use swc_tree::{Comments, Module, PassError, Script, empty_module, empty_script};
use swc_tree_handle::Trees;

/// Sets the parentheses of a module anew and moves comments along, as the fixer does where no types stand.
///
/// # Errors
///
/// `NotAssignable` where a parenthesised target takes no value, `NoMemory`. The program is then empty.
#[tactic(auto, using(swc_base_fixer::proofs::Open::items_open, swc_base_fixer::proofs::Fixed::module_answer, swc_base_fixer::proofs::Programs::module_bare, swc_base_fixer::proofs::Fixed::module_moves_for))]
pub fn fix_module<C: Comments>(
    alloc: Global,
    comments: &mut C,
    program: &mut Module,
) -> Result<(), PassError>
    ensures answer { OnOk result (module_node program.new ≡ answer_to (module_node program.old)) }
    ensures assignable { OnOk result (all_bare (module_node program.old) ≡ true) }
    ensures refusal { IfErr result IsRefusal }
    ensures unassignable { IfErr result (λ e. e ≡ error.NotAssignable → all_bare (module_node program.old) ≡ false) }
    ensures bare { IfErr result (λ e. e ≡ error.NoMemory → all_bare (module_node program.old) ≡ true) }
    ensures moved { OnOk result (LeadTo C.moved comments.old (moves_for (module_node program.old)) comments.new) }
    ensures partly { OnErr result (LeadPartlyTo C.moved comments.old (moves_for (module_node program.old)) comments.new) }
    ensures unmoved { IfErr result (λ e. e ≡ error.NotAssignable → comments.new ≡ comments.old) }
{
    let Module {
        span,
        body,
        shebang,
    } = mem::replace(program, empty_module(alloc, program.span));
    let items = fix_parens_with(alloc, comments, body.into_node())?;
    *program = Module {
        span,
        body: Trees::from_node(items),
        shebang,
    };
    Ok(())
}

/// The same for a program of the goal Script.
///
/// # Errors
///
/// Those of `fix_module`.
#[tactic(auto, using(swc_base_fixer::proofs::Open::statements_open, swc_base_fixer::proofs::Fixed::script_answer, swc_base_fixer::proofs::Programs::script_bare, swc_base_fixer::proofs::Fixed::script_moves_for))]
pub fn fix_script<C: Comments>(
    alloc: Global,
    comments: &mut C,
    program: &mut Script,
) -> Result<(), PassError>
    ensures answer { OnOk result (script_node program.new ≡ answer_to (script_node program.old)) }
    ensures assignable { OnOk result (all_bare (script_node program.old) ≡ true) }
    ensures refusal { IfErr result IsRefusal }
    ensures unassignable { IfErr result (λ e. e ≡ error.NotAssignable → all_bare (script_node program.old) ≡ false) }
    ensures bare { IfErr result (λ e. e ≡ error.NoMemory → all_bare (script_node program.old) ≡ true) }
    ensures moved { OnOk result (LeadTo C.moved comments.old (moves_for (script_node program.old)) comments.new) }
    ensures partly { OnErr result (LeadPartlyTo C.moved comments.old (moves_for (script_node program.old)) comments.new) }
    ensures unmoved { IfErr result (λ e. e ≡ error.NotAssignable → comments.new ≡ comments.old) }
{
    let Script {
        span,
        body,
        shebang,
    } = mem::replace(program, empty_script(alloc, program.span));
    let statements = fix_parens_with(alloc, comments, body.into_node())?;
    *program = Script {
        span,
        body: Trees::from_node(statements),
        shebang,
    };
    Ok(())
}
