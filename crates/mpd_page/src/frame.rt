//! The template about the data of a page (docs/PAGES.md, "The file").

ghost use Rattle.std.specs.Prelude.{◌≡◌, ◌++◌, OnOk};
ghost use Rattle.mpd_page.specs.Templates as spec;

use crate::sink::add_text;
use crate::template::{
    HEAD_0, HEAD_1, HEAD_2, TAIL_0, TAIL_1, TAIL_2, TAIL_3, TAIL_4, TAIL_5, TAIL_6, TAIL_7,
};
use std::alloc::AllocError;

/// Adds that part of the template.
#[tactic(auto, unfolding(crate::specs::Templates::head_0))]
fn push_head_0(out: &mut Vec<u8>) -> Result<(), AllocError>
    ensures { OnOk result (out.new.items ≡ out.old.items ++ spec.head_0) }
{
    add_text(out, HEAD_0)
}

/// Adds that part of the template.
#[tactic(auto, unfolding(crate::specs::Templates::head_1))]
fn push_head_1(out: &mut Vec<u8>) -> Result<(), AllocError>
    ensures { OnOk result (out.new.items ≡ out.old.items ++ spec.head_1) }
{
    add_text(out, HEAD_1)
}

/// Adds that part of the template.
#[tactic(auto, unfolding(crate::specs::Templates::head_2))]
fn push_head_2(out: &mut Vec<u8>) -> Result<(), AllocError>
    ensures { OnOk result (out.new.items ≡ out.old.items ++ spec.head_2) }
{
    add_text(out, HEAD_2)
}

/// Adds that part of the template.
#[tactic(auto, unfolding(crate::specs::Templates::tail_0))]
fn push_tail_0(out: &mut Vec<u8>) -> Result<(), AllocError>
    ensures { OnOk result (out.new.items ≡ out.old.items ++ spec.tail_0) }
{
    add_text(out, TAIL_0)
}

/// Adds that part of the template.
#[tactic(auto, unfolding(crate::specs::Templates::tail_1))]
fn push_tail_1(out: &mut Vec<u8>) -> Result<(), AllocError>
    ensures { OnOk result (out.new.items ≡ out.old.items ++ spec.tail_1) }
{
    add_text(out, TAIL_1)
}

/// Adds that part of the template.
#[tactic(auto, unfolding(crate::specs::Templates::tail_2))]
fn push_tail_2(out: &mut Vec<u8>) -> Result<(), AllocError>
    ensures { OnOk result (out.new.items ≡ out.old.items ++ spec.tail_2) }
{
    add_text(out, TAIL_2)
}

/// Adds that part of the template.
#[tactic(auto, unfolding(crate::specs::Templates::tail_3))]
fn push_tail_3(out: &mut Vec<u8>) -> Result<(), AllocError>
    ensures { OnOk result (out.new.items ≡ out.old.items ++ spec.tail_3) }
{
    add_text(out, TAIL_3)
}

/// Adds that part of the template.
#[tactic(auto, unfolding(crate::specs::Templates::tail_4))]
fn push_tail_4(out: &mut Vec<u8>) -> Result<(), AllocError>
    ensures { OnOk result (out.new.items ≡ out.old.items ++ spec.tail_4) }
{
    add_text(out, TAIL_4)
}

/// Adds that part of the template.
#[tactic(auto, unfolding(crate::specs::Templates::tail_5))]
fn push_tail_5(out: &mut Vec<u8>) -> Result<(), AllocError>
    ensures { OnOk result (out.new.items ≡ out.old.items ++ spec.tail_5) }
{
    add_text(out, TAIL_5)
}

/// Adds that part of the template.
#[tactic(auto, unfolding(crate::specs::Templates::tail_6))]
fn push_tail_6(out: &mut Vec<u8>) -> Result<(), AllocError>
    ensures { OnOk result (out.new.items ≡ out.old.items ++ spec.tail_6) }
{
    add_text(out, TAIL_6)
}

/// Adds that part of the template.
#[tactic(auto, unfolding(crate::specs::Templates::tail_7))]
fn push_tail_7(out: &mut Vec<u8>) -> Result<(), AllocError>
    ensures { OnOk result (out.new.items ≡ out.old.items ++ spec.tail_7) }
{
    add_text(out, TAIL_7)
}

/// Adds what stands before the data of a page.
#[tactic(auto, unfolding(crate::specs::Templates::page_head))]
pub(crate) fn push_page_head(out: &mut Vec<u8>) -> Result<(), AllocError>
    ensures { OnOk result (out.new.items ≡ out.old.items ++ spec.page_head) }
{
    push_head_0(out)?;
    push_head_1(out)?;
    push_head_2(out)
}

/// Adds what stands after the data of a page.
#[tactic(auto, unfolding(crate::specs::Templates::page_tail))]
pub(crate) fn push_page_tail(out: &mut Vec<u8>) -> Result<(), AllocError>
    ensures { OnOk result (out.new.items ≡ out.old.items ++ spec.page_tail) }
{
    push_tail_0(out)?;
    push_tail_1(out)?;
    push_tail_2(out)?;
    push_tail_3(out)?;
    push_tail_4(out)?;
    push_tail_5(out)?;
    push_tail_6(out)?;
    push_tail_7(out)
}
