#![tactic(auto)]
// Prints worked figures: searches in both arithmetics, and the gaps between the first points of the slope 17 on the circle of 45.
mod searches;

ghost use Rattle.figures.specs.Figures.{Figures, SheetAndTermsFigures};

use searches::{show_all_gaps, show_searches};

/// Every figure holds of the definitions.
fn figures_hold()
    ensures every_figure_holds { Figures }
    ensures every_figure_of_sheets_and_terms_holds { SheetAndTermsFigures }
{}

fn run(rt: &impl Print) -> anyhow::Result<()> {
    figures_hold();
    show_searches(rt)?;
    show_all_gaps(rt)?;
    Ok(())
}

fn main(rt: HostRuntime) -> anyhow::Result<()> {
    run(&rt)
}
