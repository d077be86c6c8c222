//! Shows that a configuration is `Send` and `Sync`, so that threads may have it. The check can't find this by itself, because a built
//! pattern is too large for its search. So the types of which a configuration is made are shown to be `Send` and `Sync` one after another,
//! from the inmost on.
ghost use denote.Param.Send.{IsSend, IsSync};
ghost use Rattle.regex_hir.specs.contracts.hir.Hir as hir_type;
ghost use Rattle.regex.specs.contracts.string.regex.Regex as regex_type;
ghost use Rattle.gate_rule.specs.contracts.pattern.Pattern as pattern_type;
ghost use Rattle.gate_rule.specs.contracts.entry.Entry as entry_type;
ghost use Rattle.gate_rule.specs.contracts.rule.Rule as rule_type;
ghost use Rattle.gate_config.specs.contracts.config.PipelineSpec as pipeline_type;
ghost use Rattle.gate_config.specs.contracts.config.Config as config_type;
ghost use Rattle.gate_config.specs.contracts.generations.Generations as generations_type;

use gate_config::{Config, PipelineSpec, TenantSpec};
use gate_rule::{Pattern, Rule};
use regex_hir::Hir;

// `T` is `Send` and `Sync`.
fn crosses<T: Send + Sync>()
    ensures send { IsSend T.row }
    ensures sync { IsSync T.row }
{}

fn hir_crosses()
    ensures send { IsSend hir_type.the_row }
    ensures sync { IsSync hir_type.the_row }
{
    crosses::<Hir>();
}

fn regex_crosses()
    ensures send { IsSend regex_type.the_row }
    ensures sync { IsSync regex_type.the_row }
{
    hir_crosses();
}

fn pattern_crosses()
    ensures send { IsSend pattern_type.the_row }
    ensures sync { IsSync pattern_type.the_row }
{
    regex_crosses();
    crosses::<Pattern>();
}

fn entry_crosses()
    ensures send { IsSend entry_type.the_row }
    ensures sync { IsSync entry_type.the_row }
{
    pattern_crosses();
}

fn rule_crosses()
    ensures send { IsSend rule_type.the_row }
    ensures sync { IsSync rule_type.the_row }
{
    entry_crosses();
    crosses::<Rule>();
}

fn pipeline_crosses()
    ensures send { IsSend pipeline_type.the_row }
    ensures sync { IsSync pipeline_type.the_row }
{
    rule_crosses();
    crosses::<PipelineSpec>();
}

/// A configuration is `Send` and `Sync`: a law, for callers that start threads of their own.
pub fn config_crosses()
    ensures send { IsSend config_type.the_row }
    ensures sync { IsSync config_type.the_row }
{
    pipeline_crosses();
    crosses::<TenantSpec>();
    crosses::<Config>();
}

/// The generations of a configuration are `Send` and `Sync`: a law, for callers that start threads of their own.
pub fn generations_cross()
    ensures send { IsSend generations_type.the_row }
    ensures sync { IsSync generations_type.the_row }
{
    config_crosses();
}
