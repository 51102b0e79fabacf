//! The syntax tree of JavaScript, as passes and their callers use it.
//!
//! A program is a `Module` or a `Script`. Its items are `Trees`, lists of nodes that fit their class,
//! and each struct and sum of the tree stands here under its name, one level deep: `Tree::open` takes
//! a node apart, `Opened::close` puts it together, and no ill-formed tree can be made of them. A pass
//! is a `JsPass`: it takes the items out of a program, works on the nodes in place, and puts them
//! back. One that works on the node of a whole program is a `ProgramPass`, and so a `JsPass`. A `Check` looks at a program and says whether it is to be handled. What stands where in the
//! tree is data too, in `table`.
#![tactic(auto)]

mod check;
mod empty;
mod fitting;
mod idle;
mod pass;
mod passes;
mod programs;
pub mod table;
mod types;

pub use check::{Check, Checked, should_work};
pub use empty::{empty_module, empty_script};
pub use fitting::{module_fits, script_fits};
pub use idle::Noop;
pub use pass::JsPass;
pub use passes::noop;
pub use programs::ProgramPass;
pub use swc_tree_comments::{Comments, Move, NoComments};
pub use swc_tree_ext::{
    AsOptExpr, ExprRefExt, StmtLike, find_pat_ids, is_use_strict, prepend_stmts,
};
pub use swc_tree_handle::{Holes, Opened, Pairs, Tree, Trees, class};
pub use swc_tree_items::{Boxed, Items, Text};
pub use swc_tree_marks::{
    Atom, BytePos, DUMMY_SP, Globals, Id, Ident, JsWord, Mark, MarkError, NoMemory, PassError,
    Span, SyntaxContext,
};
pub use swc_tree_node::{Kind, Node};
pub use swc_tree_version::EsVersion;
pub use types::{types_in_module, types_in_script};

// From here on printed by tools/print_table.py from tools/tree.txt.
pub use swc_tree_expressions::AssignTarget;
pub use swc_tree_expressions::AssignTargetPat;
pub use swc_tree_expressions::Callee;
pub use swc_tree_expressions::Expr;
pub use swc_tree_expressions::MemberProp;
pub use swc_tree_expressions::OptChainBase;
pub use swc_tree_expressions::Prop;
pub use swc_tree_expressions::PropOrSpread;
pub use swc_tree_expressions::SimpleAssignTarget;
pub use swc_tree_expressions::SuperProp;
pub use swc_tree_functions::ArrowExpr;
pub use swc_tree_functions::Class;
pub use swc_tree_functions::ClassExpr;
pub use swc_tree_functions::ClassMember;
pub use swc_tree_functions::ClassMethod;
pub use swc_tree_functions::ClassProp;
pub use swc_tree_functions::ComputedPropName;
pub use swc_tree_functions::Constructor;
pub use swc_tree_functions::FnExpr;
pub use swc_tree_functions::Function;
pub use swc_tree_functions::GetterProp;
pub use swc_tree_functions::MethodKind;
pub use swc_tree_functions::MethodProp;
pub use swc_tree_functions::Param;
pub use swc_tree_functions::PrivateMethod;
pub use swc_tree_functions::PrivateProp;
pub use swc_tree_functions::PropName;
pub use swc_tree_functions::SetterProp;
pub use swc_tree_functions::StaticBlock;
pub use swc_tree_leaves::BigInt;
pub use swc_tree_leaves::BindingIdent;
pub use swc_tree_leaves::Bool;
pub use swc_tree_leaves::BreakStmt;
pub use swc_tree_leaves::ContinueStmt;
pub use swc_tree_leaves::DebuggerStmt;
pub use swc_tree_leaves::EmptyStmt;
pub use swc_tree_leaves::IdentName;
pub use swc_tree_leaves::Import;
pub use swc_tree_leaves::Lit;
pub use swc_tree_leaves::MetaPropExpr;
pub use swc_tree_leaves::MetaPropKind;
pub use swc_tree_leaves::ModuleExportName;
pub use swc_tree_leaves::Null;
pub use swc_tree_leaves::Number;
pub use swc_tree_leaves::PrivateName;
pub use swc_tree_leaves::Regex;
pub use swc_tree_leaves::Str;
pub use swc_tree_leaves::Super;
pub use swc_tree_leaves::ThisExpr;
pub use swc_tree_leaves::TplElement;
pub use swc_tree_modules::DefaultDecl;
pub use swc_tree_modules::ExportAll;
pub use swc_tree_modules::ExportDecl;
pub use swc_tree_modules::ExportDefaultDecl;
pub use swc_tree_modules::ExportDefaultExpr;
pub use swc_tree_modules::ExportNamedSpecifier;
pub use swc_tree_modules::ExportNamespaceSpecifier;
pub use swc_tree_modules::ExportSpecifier;
pub use swc_tree_modules::ImportDecl;
pub use swc_tree_modules::ImportDefaultSpecifier;
pub use swc_tree_modules::ImportNamedSpecifier;
pub use swc_tree_modules::ImportSpecifier;
pub use swc_tree_modules::ImportStarAsSpecifier;
pub use swc_tree_modules::Module;
pub use swc_tree_modules::ModuleDecl;
pub use swc_tree_modules::ModuleItem;
pub use swc_tree_modules::NamedExport;
pub use swc_tree_modules::Script;
pub use swc_tree_operations::ArrayLit;
pub use swc_tree_operations::AssignExpr;
pub use swc_tree_operations::AssignOp;
pub use swc_tree_operations::AwaitExpr;
pub use swc_tree_operations::BinExpr;
pub use swc_tree_operations::BinaryOp;
pub use swc_tree_operations::CallExpr;
pub use swc_tree_operations::CondExpr;
pub use swc_tree_operations::ExprOrSpread;
pub use swc_tree_operations::KeyValueProp;
pub use swc_tree_operations::MemberExpr;
pub use swc_tree_operations::NewExpr;
pub use swc_tree_operations::ObjectLit;
pub use swc_tree_operations::OptCall;
pub use swc_tree_operations::OptChainExpr;
pub use swc_tree_operations::ParenExpr;
pub use swc_tree_operations::SeqExpr;
pub use swc_tree_operations::SpreadElement;
pub use swc_tree_operations::SuperPropExpr;
pub use swc_tree_operations::TaggedTpl;
pub use swc_tree_operations::Tpl;
pub use swc_tree_operations::UnaryExpr;
pub use swc_tree_operations::UnaryOp;
pub use swc_tree_operations::UpdateExpr;
pub use swc_tree_operations::UpdateOp;
pub use swc_tree_operations::YieldExpr;
pub use swc_tree_patterns::ArrayPat;
pub use swc_tree_patterns::AssignPat;
pub use swc_tree_patterns::AssignPatProp;
pub use swc_tree_patterns::KeyValuePatProp;
pub use swc_tree_patterns::ObjectPat;
pub use swc_tree_patterns::ObjectPatProp;
pub use swc_tree_patterns::Pat;
pub use swc_tree_patterns::RestPat;
pub use swc_tree_statements::BlockStmt;
pub use swc_tree_statements::BlockStmtOrExpr;
pub use swc_tree_statements::CatchClause;
pub use swc_tree_statements::ClassDecl;
pub use swc_tree_statements::Decl;
pub use swc_tree_statements::DoWhileStmt;
pub use swc_tree_statements::ExprStmt;
pub use swc_tree_statements::FnDecl;
pub use swc_tree_statements::ForHead;
pub use swc_tree_statements::ForInStmt;
pub use swc_tree_statements::ForOfStmt;
pub use swc_tree_statements::ForStmt;
pub use swc_tree_statements::IfStmt;
pub use swc_tree_statements::LabeledStmt;
pub use swc_tree_statements::ReturnStmt;
pub use swc_tree_statements::Stmt;
pub use swc_tree_statements::SwitchCase;
pub use swc_tree_statements::SwitchStmt;
pub use swc_tree_statements::ThrowStmt;
pub use swc_tree_statements::TryStmt;
pub use swc_tree_statements::UsingDecl;
pub use swc_tree_statements::VarDecl;
pub use swc_tree_statements::VarDeclKind;
pub use swc_tree_statements::VarDeclOrExpr;
pub use swc_tree_statements::VarDeclarator;
pub use swc_tree_statements::WhileStmt;
pub use swc_tree_statements::WithStmt;
pub use swc_tree_types::TsArrayType;
pub use swc_tree_types::TsEntityName;
pub use swc_tree_types::TsEnumDecl;
pub use swc_tree_types::TsEnumMember;
pub use swc_tree_types::TsEnumMemberId;
pub use swc_tree_types::TsInterfaceDecl;
pub use swc_tree_types::TsKeywordType;
pub use swc_tree_types::TsModuleDecl;
pub use swc_tree_types::TsPropertySignature;
pub use swc_tree_types::TsQualifiedName;
pub use swc_tree_types::TsType;
pub use swc_tree_types::TsTypeAliasDecl;
pub use swc_tree_types::TsTypeLit;
pub use swc_tree_types::TsTypeParam;
pub use swc_tree_types::TsTypeRef;
pub use swc_tree_types::TsUnionType;
