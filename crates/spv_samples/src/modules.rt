//! Modules with their texts. Written by `tests/samples`.

use crate::Sample;

/// `tests/modules/smallest-kernel.spv`.
pub const SMALLEST_KERNEL: Sample<'static> = Sample {
    words: "7230203 10600 0 5 0 20011 4 20011 6 3000e 2 2 4000f 6 3 6b 20013 1 30021 2 1 50036 1 3 0 2 200f8 4 100fd 10038",
    text: r#"; SPIR-V
; Version: 1.6
; Generator: 0
; Bound: 5
; Schema: 0
OpCapability Addresses
OpCapability Kernel
OpMemoryModel Physical64 OpenCL
OpEntryPoint Kernel %3 "k"
%1 = OpTypeVoid
%2 = OpTypeFunction %1
%3 = OpFunction %1 None %2
%4 = OpLabel
OpReturn
OpFunctionEnd
"#,
};

/// `tests/modules/loop-with-phi.spv`.
pub const LOOP_WITH_PHI: Sample<'static> = Sample {
    words: "7230203 10600 0 13 0 20011 4 20011 6 3000e 2 2 4000f 6 a 6b 20013 1 40015 2 20 0 20014 3 50021 4 1 2 3 50036 1 a 0 4
30037 2 b 30037 3 c 200f8 d 200f9 e 200f8 e 700f5 2 11 b d 12 f 400fa c f 10 200f8 f 50080 2 12 11 b 200f9 e 200f8
10 100fd 10038",
    text: r#"; SPIR-V
; Version: 1.6
; Generator: 0
; Bound: 19
; Schema: 0
OpCapability Addresses
OpCapability Kernel
OpMemoryModel Physical64 OpenCL
OpEntryPoint Kernel %10 "k"
%1 = OpTypeVoid
%2 = OpTypeInt 32 0
%3 = OpTypeBool
%4 = OpTypeFunction %1 %2 %3
%10 = OpFunction %1 None %4
%11 = OpFunctionParameter %2
%12 = OpFunctionParameter %3
%13 = OpLabel
OpBranch %14
%14 = OpLabel
%17 = OpPhi %2 %11 %13 %18 %15
OpBranchConditional %12 %15 %16
%15 = OpLabel
%18 = OpIAdd %2 %17 %11
OpBranch %14
%16 = OpLabel
OpReturn
OpFunctionEnd
"#,
};

/// `tests/modules/show-a-mask-of-two-bits.spv`.
pub const LOAD_WITH_MASK: Sample<'static> = Sample {
    words: "7230203 10600 0 a 0 6003d 2 9 8 3 4",
    text: r#"; SPIR-V
; Version: 1.6
; Generator: 0
; Bound: 10
; Schema: 0
%9 = OpLoad %2 %8 Volatile|Aligned 4
"#,
};

/// `tests/modules/call-of-a-later-function.spv`.
pub const CALL_OF_LATER_FUNCTION: Sample<'static> = Sample {
    words: "7230203 10600 0 18 0 20011 4 20011 6 3000e 2 2 4000f 6 a 6b 20013 1 40015 2 20 0 20014 3 50021 4 1 2 3 40021 5 2 2
50036 1 a 0 4 30037 2 b 30037 3 c 200f8 d 400fa c e f 200f8 e 50039 2 10 14 b 200f9 f 200f8 f 100fd 10038 50036 2 14
0 5 30037 2 15 200f8 16 50080 2 17 15 15 200fe 17 10038",
    text: r#"; SPIR-V
; Version: 1.6
; Generator: 0
; Bound: 24
; Schema: 0
OpCapability Addresses
OpCapability Kernel
OpMemoryModel Physical64 OpenCL
OpEntryPoint Kernel %10 "k"
%1 = OpTypeVoid
%2 = OpTypeInt 32 0
%3 = OpTypeBool
%4 = OpTypeFunction %1 %2 %3
%5 = OpTypeFunction %2 %2
%10 = OpFunction %1 None %4
%11 = OpFunctionParameter %2
%12 = OpFunctionParameter %3
%13 = OpLabel
OpBranchConditional %12 %14 %15
%14 = OpLabel
%16 = OpFunctionCall %2 %20 %11
OpBranch %15
%15 = OpLabel
OpReturn
OpFunctionEnd
%20 = OpFunction %2 None %5
%21 = OpFunctionParameter %2
%22 = OpLabel
%23 = OpIAdd %2 %21 %21
OpReturnValue %23
OpFunctionEnd
"#,
};
