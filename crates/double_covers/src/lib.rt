//! Double covers of a mesh, which carry questions on a surface that is not orientable over to one that is: laws alone.
//!
//! A cover has two sheets over the mesh, and some edges turn: a step along such an edge leads from the one sheet to the other. Where
//! once round each face leads home to the sheet, walks and faces are lifted, and two walks of the mesh are homotopic exactly where
//! their lifts from one sheet are. Where those edges turn along which the ways round two vertices do not agree, the cover is
//! orientable; and nothing stands in the way of such ways where no edge has three sides, since the corners at no vertex are twisted.
#![tactic(auto)]

pub mod laws;
