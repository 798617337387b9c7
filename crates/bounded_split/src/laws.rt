//! The law of epochs: a function that does nothing, with the law as clauses.

ghost use Rattle.std.specs.Prelude.{ℕ, List};
ghost use Rattle.region_directory.specs.Directory.{DirectoryView, IsDirectory};
ghost use Rattle.bounded_split.specs.Epoch.{after_epoch, epoch_notes};
ghost use Rattle.bounded_split.specs.Steps.{EpochStep, MayStepEach, AreDirectories, GoesBySteps};

/// An epoch is a list of merges and splits, each one that the directory at that moment allows, with one
/// note each, in this order; then all hits are 0. So there is a directory between each two of its notes.
pub fn an_epoch_goes_step_by_step()
    ensures steps { (threshold : ℕ) (directory : DirectoryView)
        → GoesBySteps directory (after_epoch threshold directory) (epoch_notes threshold directory) }
    ensures directories { (steps : List EpochStep) (directory : DirectoryView)
        → IsDirectory directory → MayStepEach steps directory → AreDirectories steps directory }
{}
